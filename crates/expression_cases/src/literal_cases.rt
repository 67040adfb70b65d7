//! Worked expressions with compound literals, from their texts to their core nodes and the entities of the unit.
#[cfg(test)]
mod tests;

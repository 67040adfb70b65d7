//! Worked expressions, from their texts to their core nodes.
#![tactic(auto)]

pub mod literal_cases;
#[cfg(test)]
mod tests;

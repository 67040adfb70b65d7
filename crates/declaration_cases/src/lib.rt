//! Declarations, what is read of trees that are made by hand, results, maps of leaves and whole units, against what C11 says of them.
#![tactic(auto)]

#[cfg(test)]
mod claims;
#[cfg(test)]
mod fields;
#[cfg(test)]
mod hand;
#[cfg(test)]
mod maps;
#[cfg(test)]
mod results;
#[cfg(test)]
mod trees;
#[cfg(test)]
mod types;
#[cfg(test)]
mod validity;

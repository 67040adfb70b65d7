//! Of what parts the statements consist in the tree of a unit that is read.
pub mod laws;

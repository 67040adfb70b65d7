//! Laws of units that are made of the walk over a tree: these functions do nothing, and their contracts are the laws.
pub mod laws;

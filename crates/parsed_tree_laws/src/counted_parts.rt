//! How many parts of some sorts the nodes have in the tree of a unit that is read.
pub mod laws;

//! The order of the nodes of the tree of a unit that is read.
pub mod laws;

//! The law of the rows of units that are made of the walk over a tree: a function that does nothing, whose contract it is.
pub mod laws;

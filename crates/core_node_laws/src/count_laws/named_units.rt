//! That the parts of a unit are told apart by their names and places.
pub mod laws;

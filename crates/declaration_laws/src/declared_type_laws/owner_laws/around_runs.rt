//! Where the initialiser of an automatic object stands in a unit.
pub mod laws;

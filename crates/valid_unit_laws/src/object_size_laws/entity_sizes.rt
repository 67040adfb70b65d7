//! The sizes of the entities of a unit that is built: a function that does nothing, whose contract is that law.
pub mod laws;

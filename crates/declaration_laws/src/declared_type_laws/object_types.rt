//! The types of initialised objects: a function that does nothing, whose contract is that law.
pub mod laws;

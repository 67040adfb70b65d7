//! The types of compound literals' objects: a function that does nothing, whose contract is that law.
pub mod laws;

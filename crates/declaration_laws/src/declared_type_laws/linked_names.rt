//! The types of external names: a function that does nothing, whose contract is that law.
pub mod laws;

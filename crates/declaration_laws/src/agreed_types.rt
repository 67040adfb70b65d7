//! When all types of one name agree: a function that does nothing, whose contract is that law.
pub mod laws;

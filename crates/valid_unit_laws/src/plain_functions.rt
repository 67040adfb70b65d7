//! The types of what is defined as a function: a function that does nothing, whose contract is that law.
pub mod laws;

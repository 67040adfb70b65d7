//! The types of what is declared as a function: a function that does nothing, whose contract is that law.
pub mod laws;

//! How functions are stored: a function that does nothing, whose contract is that law.
pub mod laws;

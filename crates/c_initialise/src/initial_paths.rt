//! Where the values of initialisers go: a function that does nothing, whose contract is that law.
pub mod laws;

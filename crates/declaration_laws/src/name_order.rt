//! In what order names are declared and used: a function that does nothing, whose contract is that law.
pub mod laws;

//! What internal names mean: a function that does nothing, whose contract is that law.
pub mod laws;

//! Which types of declarations are settled: a function that does nothing, whose contract is that law.
pub mod laws;

//! The types of names without linkage: a function that does nothing, whose contract is that law.
pub mod laws;

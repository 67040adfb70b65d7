//! The types that declarations of one name give together: a function that does nothing, whose contract is that law.
pub mod laws;

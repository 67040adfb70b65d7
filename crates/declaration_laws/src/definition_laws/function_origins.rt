//! Where the declarations of functions come from: a function that does nothing, whose contract is that law.
pub mod laws;

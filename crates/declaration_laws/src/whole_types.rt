//! The type that all declarations of an internal name give: a function that does nothing, whose contract is that law.
pub mod laws;

//! That the declarations of an internal name agree as a whole: a function that does nothing, whose contract is that law.
pub mod laws;

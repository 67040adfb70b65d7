//! Initialisers are those of their declarators: a function that does nothing, whose contract is that law.
pub mod laws;

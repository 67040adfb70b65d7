//! Initialisers stand before the declarators that follow theirs: a function that does nothing, whose contract is that law.
pub mod laws;

//! Parameters have no initialisers.
pub mod laws;

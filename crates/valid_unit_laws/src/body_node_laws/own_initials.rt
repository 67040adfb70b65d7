//! The initialisers of automatic objects are those of their own names.
pub mod laws;

//! Where initialisers stand in declarations.
pub mod laws;

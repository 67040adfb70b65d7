//! That names are initialised once in all bodies.
pub mod laws;

//! The blocks of functions of a parsed unit.
pub mod laws;

//! What is first used at one place of the units of texts has one name.
pub mod laws;

//! The cases of the switches of a unit that is built from a text.
pub mod laws;

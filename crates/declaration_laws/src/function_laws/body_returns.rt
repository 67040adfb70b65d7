//! What the functions of a unit return that is built from a text.
pub mod laws;

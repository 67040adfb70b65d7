//! What the functions of a unit give that is built from a text.
pub mod laws;

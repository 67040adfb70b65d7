//! What stands where in a unit that is built from a text.
pub mod laws;

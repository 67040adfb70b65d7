//! What a unit that is built of a text initialises.
pub mod laws;

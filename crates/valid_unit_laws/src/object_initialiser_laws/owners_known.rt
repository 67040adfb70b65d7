//! Locals and the lists of blocks in a unit that is built of a text.
pub mod laws;

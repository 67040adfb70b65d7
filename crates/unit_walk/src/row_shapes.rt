//! What the rows of a unit's nodes give over senses of which something is known.
pub mod laws;

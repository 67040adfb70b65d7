//! The lists of blocks in a unit that is made of the senses of a whole tree.
pub mod laws;

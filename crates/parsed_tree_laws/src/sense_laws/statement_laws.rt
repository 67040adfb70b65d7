//! What the grammar says of statements and blocks, in the words of the laws on senses.
pub mod laws;

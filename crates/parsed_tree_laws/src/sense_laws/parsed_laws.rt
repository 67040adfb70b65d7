//! What reading a text says of its syntax tree, in the words of the laws on senses.
pub mod laws;

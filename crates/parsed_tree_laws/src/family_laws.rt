//! What the reading of a unit says of its tree: whose child a node is, in which order, and what lists of members and specifiers are made
//! of.
pub mod laws;

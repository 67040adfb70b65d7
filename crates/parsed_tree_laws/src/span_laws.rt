//! Which numbers the nodes under a node of a parsed tree have.
pub mod laws;

//! What can be initialised in a unit's types is what the world around a node says, from one node to the next.
pub mod laws;

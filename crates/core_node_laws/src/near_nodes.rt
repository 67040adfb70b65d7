//! Facts of the nodes that name or list entities, in the trees of nodes near each other.
pub mod laws;

//! Facts of the nodes that name or list entities, in the trees of nodes near each other, apart from what stands below suffixes.
pub mod laws;

//! Facts of the nodes that name entities, in all trees that rows give.
pub mod laws;

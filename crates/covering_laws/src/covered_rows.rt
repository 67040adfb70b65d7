//! That what a node's row gives is covered at the node: these functions do nothing, and their contracts are the laws.
pub mod laws;

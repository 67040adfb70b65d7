//! What stands in what a statement or a block stands for.
pub mod laws;

//! Whole units that are right for their syntax trees.
pub mod laws;

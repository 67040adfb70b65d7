//! How long the objects of compound literals outside of blocks live.
pub mod laws;

//! How long the objects of compound literals live.
pub mod laws;

//! Which block lists an automatic object.
pub mod laws;

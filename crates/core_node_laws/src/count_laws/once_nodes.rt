//! Nodes of a unit that the rows make once.
pub mod laws;

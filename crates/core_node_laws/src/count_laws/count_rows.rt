//! How many nodes of each kind the rows make over the senses that they use.
pub mod laws;

//! How often marked kinds stand in the trees of statements.
pub mod laws;

//! Parameters of a parsed unit stand in parameter lists.
pub mod laws;

//! A use of a name and what it means stand in one definition.
pub mod laws;

//! Strings, calls and compound literals of a parsed unit are told apart.
pub mod laws;

//! Strings, calls and compound literals of a right unit are told apart.
pub mod laws;

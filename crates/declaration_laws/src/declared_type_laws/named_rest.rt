//! The parts of a parsed unit are told apart by their names and places.
pub mod laws;

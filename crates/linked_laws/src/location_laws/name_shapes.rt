//! The parts of which names of locations are made: this crate's function does nothing, and its contract is a law.
pub mod laws;

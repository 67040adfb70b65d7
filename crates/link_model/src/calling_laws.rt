//! Where the calls of a unit stand.
pub mod laws;

//! What stands to the left of an operator behind it.
pub mod laws;

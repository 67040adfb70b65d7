//! What is known of earlier declarations: a function that does nothing, whose contract is that law.
pub mod laws;

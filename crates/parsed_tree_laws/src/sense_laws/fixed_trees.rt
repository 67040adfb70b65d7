//! The law of fixed values: a function that does nothing, whose contract it is.
pub mod laws;

//! The law of uses of external names: a function that does nothing, whose contract it is.
pub mod laws;

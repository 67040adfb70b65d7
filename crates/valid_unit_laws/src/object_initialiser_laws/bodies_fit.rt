//! The law of objects' bodies: a function that does nothing, whose contract it is.
pub mod laws;

//! The law of the linkage of compound literals: a function that does nothing, whose contract it is.
pub mod laws;

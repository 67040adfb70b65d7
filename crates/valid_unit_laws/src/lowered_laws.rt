//! The law of the units that are made of texts: a function that does nothing, whose contract it is.
pub mod laws;

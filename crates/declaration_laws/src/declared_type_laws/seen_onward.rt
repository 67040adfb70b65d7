//! The law of what is seen onward: a function that does nothing, whose contract it is.
pub mod laws;

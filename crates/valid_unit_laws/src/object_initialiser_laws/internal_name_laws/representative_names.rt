//! The law of the names that stand for internal ones: a function that does nothing, whose contract it is.
pub mod laws;

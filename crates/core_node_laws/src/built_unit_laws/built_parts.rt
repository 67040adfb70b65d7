//! The law of units that are put together: a function that does nothing, whose contract it is.
pub mod laws;

//! The law of bodies in units that are built: a function that does nothing, whose contract it is.
pub mod laws;

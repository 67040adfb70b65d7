//! The law that joins those of fields: a function that does nothing, whose contract it is.
pub mod laws;

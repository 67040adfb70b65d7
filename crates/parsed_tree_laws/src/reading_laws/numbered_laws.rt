//! Laws of the units of places: these functions do nothing, and their contracts are the laws.
pub mod laws;

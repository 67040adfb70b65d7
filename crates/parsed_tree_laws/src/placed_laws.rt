//! That what is initialised in a unit is an object that the unit defines.
pub mod laws;

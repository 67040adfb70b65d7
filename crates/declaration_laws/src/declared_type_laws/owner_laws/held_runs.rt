//! Where what declarations run stands in a unit.
pub mod laws;

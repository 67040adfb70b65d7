//! Where a unit's names are used, and what its nodes at one place name.
pub mod laws;

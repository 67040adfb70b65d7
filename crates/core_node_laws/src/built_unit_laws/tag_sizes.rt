//! Sizes of structures and unions of a unit that is built.
pub mod laws;

//! Structures and unions of a table are those of specifiers.
pub mod laws;

//! That objects are listed once.
pub mod laws;

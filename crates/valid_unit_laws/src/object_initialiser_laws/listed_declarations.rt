//! That objects are listed by one declaration.
pub mod laws;

//! That automatic objects are listed once, around their names.
pub mod laws;

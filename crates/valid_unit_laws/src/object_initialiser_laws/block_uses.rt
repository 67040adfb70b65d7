//! That what a block declares is used in it alone.
pub mod laws;

//! That what a block declares is named in trees below it alone.
pub mod laws;

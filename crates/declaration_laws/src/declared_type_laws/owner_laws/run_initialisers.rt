//! Which initialisers a declaration runs.
pub mod laws;

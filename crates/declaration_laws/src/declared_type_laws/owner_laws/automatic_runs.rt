//! Where the initialiser of an automatic object runs.
pub mod laws;

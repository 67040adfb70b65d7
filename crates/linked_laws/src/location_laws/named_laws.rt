//! That the locations of linked programs have distinct names: these functions do nothing, and their contracts are the laws.
pub mod laws;

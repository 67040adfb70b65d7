//! That calls of functions with bodies keep what sets cover: these functions do nothing, and their contracts are the laws.
pub mod laws;

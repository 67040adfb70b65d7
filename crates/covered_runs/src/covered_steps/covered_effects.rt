//! That calls of library functions keep what sets cover: these functions do nothing, and their contracts are the laws.
pub mod laws;

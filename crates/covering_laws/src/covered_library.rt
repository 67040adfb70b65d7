//! That the library's effects keep what sets cover: these functions do nothing, and their contracts are the laws.
pub mod laws;

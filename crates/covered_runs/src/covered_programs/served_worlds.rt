//! What a linked program's world has of the library: these functions do nothing, and their contracts are the laws.
pub mod laws;

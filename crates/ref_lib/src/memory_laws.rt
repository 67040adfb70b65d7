//! What each change of a memory keeps: these functions do nothing, and their contracts are the laws.
pub mod laws;

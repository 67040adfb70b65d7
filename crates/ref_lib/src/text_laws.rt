//! What a text is: these functions do nothing, and their contracts are the laws.
pub mod laws;

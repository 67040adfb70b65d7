//! Laws of what a system knows of types: these functions do nothing, and their contracts are the laws.
pub mod laws;

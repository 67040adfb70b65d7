//! Laws of programs that are one, but for numbers: these functions do nothing, and their contracts are the laws.
pub mod laws;

//! Laws of programs that are linked from valid units: these functions do nothing, and their contracts are the laws.
pub mod laws;

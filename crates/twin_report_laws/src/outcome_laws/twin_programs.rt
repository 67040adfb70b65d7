//! Laws of programs that are linked from units which are alike: these functions do nothing, and their contracts are the laws.
pub mod laws;

//! Laws of the constraints of a program's system: these functions do nothing, and their contracts are the laws.
pub mod laws;

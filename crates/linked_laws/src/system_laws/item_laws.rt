//! Laws of initialisers' constraints: these functions do nothing, and their contracts are the laws.
pub mod laws;

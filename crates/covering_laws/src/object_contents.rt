//! What the objects of programs are made of: these functions do nothing, and their contracts are the laws.
pub mod laws;

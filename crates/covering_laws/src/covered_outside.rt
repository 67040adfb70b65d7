//! What passes between a program and what lies outside it: these functions do nothing, and their contracts are the laws.
pub mod laws;

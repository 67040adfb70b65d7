//! That what the nodes of a program compute is covered: these functions do nothing, and their contracts are the laws.
pub mod laws;

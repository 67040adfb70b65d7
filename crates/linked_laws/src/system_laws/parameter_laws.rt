//! Laws of the rows of parameters: these functions do nothing, and their contracts are the laws.
pub mod laws;

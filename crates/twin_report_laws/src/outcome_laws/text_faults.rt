//! Laws of texts whose units are right: these functions do nothing, and their contracts are the laws.
pub mod laws;

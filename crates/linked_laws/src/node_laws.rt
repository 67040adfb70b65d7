//! Laws of the nodes of linked programs whose units are valid: these functions do nothing, and their contracts are the laws.
pub mod laws;

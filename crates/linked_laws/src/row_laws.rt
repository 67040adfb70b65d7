//! Laws of the rows of linked programs' nodes: these functions do nothing, and their contracts are the laws.
pub mod laws;

//! Laws of the types of linked programs' entities: these functions do nothing, and their contracts are the laws.
pub mod laws;

//! What the walks of definitions give, as relations: these functions do nothing, and their contracts are the laws.
pub mod laws;

//! Which calls reach the functions that allocate: these functions do nothing, and their contracts are the laws.
pub mod laws;

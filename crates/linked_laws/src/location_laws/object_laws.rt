//! That each location belongs to one object: these functions do nothing, and their contracts are the laws.
pub mod laws;

//! Laws of faults of linking: these functions do nothing, and their contracts are the laws.
pub mod laws;

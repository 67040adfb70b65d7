//! Laws of initialised objects in linked programs: these functions do nothing, and their contracts are the laws.
pub mod laws;

//! Laws of what makes objects in right units and in linked programs: these functions do nothing, and their contracts are the laws.
pub mod laws;

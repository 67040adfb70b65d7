//! Programs with more types than they name, as a machine runs them: these functions do nothing, and their contracts are the laws.
pub mod laws;

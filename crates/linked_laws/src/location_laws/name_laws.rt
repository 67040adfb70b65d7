//! That locations have distinct names: this crate's function does nothing, and its contract is the law.
pub mod laws;

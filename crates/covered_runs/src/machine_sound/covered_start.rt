//! That the start of the machine is within what sets cover: these functions do nothing, and their contracts are the laws.
pub mod laws;

//! Types of the nodes of linked programs, as what sets cover needs them: these functions do nothing, and their contracts are the laws.
pub mod laws;

//! What it means that sets cover a state of the machine (Andersen 1994): these functions do nothing, and their contracts are the laws.
pub mod laws;

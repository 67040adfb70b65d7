//! What it means that sets cover a memory, and that reads, writes and parts of places stay covered: these functions do nothing, and
//! their contracts are the laws.
pub mod laws;

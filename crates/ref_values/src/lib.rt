// The rows of expressions: what a node computes from the values of its operands, and what that leaves of the memory.
#![tactic(auto)]

pub mod memory;
pub mod numbers;
pub mod ranges;
pub mod values;

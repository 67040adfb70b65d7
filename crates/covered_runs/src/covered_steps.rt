//! That the rows of the reference machine keep what the sets cover: values and places (`covered_values`), objects that have their place,
//! instances that are made and ended (`laws`), calls and frames (`covered_calls`), statements (`covered_statements`), library functions
//! (`covered_effects`). These functions do nothing, and their contracts are the laws.
pub mod covered_calls;
pub mod covered_effects;
pub mod covered_statements;
pub mod covered_values;
pub mod laws;

//! The table of conversions over core nodes: null constants, and what a value of one type is as a value of another (C11 6.3).
#![tactic(auto)]

pub mod constant_values;
pub mod nulls;
pub mod table;
mod targets;
mod upcasts;
pub mod values;

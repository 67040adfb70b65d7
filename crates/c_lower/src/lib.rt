//! The unit that a text stands for: its types, entities and core nodes (C11 6.5 to 6.9).
#![tactic(auto)]

pub mod laws;
mod lowering;
pub mod unit_lowering;

pub use lowering::lower_unit;

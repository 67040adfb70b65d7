// From the texts of units to their core units.
#![tactic(auto)]

pub mod alone;
pub mod fault;
pub mod laws;
pub mod lowered;
pub mod places;
mod rows;

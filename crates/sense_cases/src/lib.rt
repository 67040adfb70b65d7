//! Worked cases of what syntax trees stand for.
#![tactic(auto)]

pub mod cases;
pub mod laws;
pub mod refusals;
pub mod right_cases;

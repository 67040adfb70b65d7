//! Laws of what is told: these functions do nothing, and their contracts are the laws.
#![tactic(auto)]

pub mod laws;
pub mod told_runs;

//! That two runs on the same texts have one outcome (`outcome_laws`) and print the same bytes: these functions do nothing, and their
//! contracts are the laws.
#![tactic(auto)]

pub mod answers;
pub mod apart;
pub mod linked;
pub mod order_laws;
pub mod orders;
pub mod outcome_laws;
pub mod prints;
pub mod reports;
pub mod rows;
pub mod systems;

//! What a unit knows of the world around a node, from one node to the next.
#![tactic(auto)]

pub mod laws;
pub mod unit_limits;

// Blocks and their objects, the ways through a body, and where jumps go.
#![tactic(auto)]

pub mod block;
pub mod blocks;
pub mod jumps;
pub mod lists;
pub mod loops;
pub mod marks;
pub mod order;
pub mod parents;
pub mod plan;
pub mod targets;
pub mod ways;

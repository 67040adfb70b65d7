//! What the definition of valid units asks of single nodes and entities: where they stand, which bodies and lists they have, and which
//! values are fixed before the program runs.
#![tactic(auto)]

pub mod bodies;
pub mod cases;
pub mod entities;
pub mod fixed;

// The rows of statements, and what a frame's top item does.
#![tactic(auto)]

pub mod bodies;
pub mod forms;
pub mod initialisers;
pub mod jumping;
pub mod nodes;
pub mod rows;
pub mod statements;

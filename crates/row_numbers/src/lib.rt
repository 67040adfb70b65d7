// The rows of a program, numbered: those of its locations, of its nodes and of its functions' results.
#![tactic(auto)]

pub mod around;
pub mod frame;
pub mod functions;
pub mod kept;
pub mod numbering;
pub mod numbers;
pub mod objects;
pub mod results;

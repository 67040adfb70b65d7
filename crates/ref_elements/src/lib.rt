// Elements of objects: what the functions of the library read and change.
#![tactic(auto)]

pub mod arguments;
pub mod objects;
pub mod outcome;
pub mod parts;
pub mod runs;

// The rows of places and pointers: one definition and one function a row.
#![tactic(auto)]

pub mod parts;
pub mod places;
pub mod pointers;

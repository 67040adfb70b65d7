// The functions of the library that copy, set, order and find whole elements.
#![tactic(auto)]

pub mod copies;
pub mod sets;
pub mod turns;

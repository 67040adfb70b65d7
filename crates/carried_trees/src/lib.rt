//! Core trees carried from one unit to another, where what they name has other numbers.
#![tactic(auto)]

pub mod carried_types;
mod carrying;
mod literals;
mod nodes;
mod tags;
mod told;
mod whole;

pub use carrying::WholeTree;
pub use tags::open_in;
pub use told::is_tree_told;
pub use whole::carry_whole;

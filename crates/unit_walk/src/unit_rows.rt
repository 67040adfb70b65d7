//! The row of each node of a unit's syntax tree.
mod along;
mod declarators;
mod initials;
mod known;
mod names;
mod parts;
mod rows;
mod structures;

pub use along::Along;
pub use known::Known;
pub use rows::row;

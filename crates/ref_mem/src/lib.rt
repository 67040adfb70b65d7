// The memory of the reference machine: instances of objects, and what their cells hold.
#![tactic(auto)]

pub mod arguments;
pub mod memory;
mod reads;
mod writes;

pub use writes::{Initial, initialise, width_along};

//! A unit that is right, out of the nodes that its rows made and of what is declared.
#![tactic(auto)]

mod completing;
mod finishing;
mod keeping;
pub mod own_bodies;
pub mod planted_nodes;
pub mod unit_parts;

pub use completing::{Heading, complete};
pub use finishing::finish;
pub use keeping::{Kept, keep};

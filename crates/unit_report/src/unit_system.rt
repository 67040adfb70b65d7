//! The system of the program that units are, or the first fault of linking them, or the limit that it passes.
mod fault;
pub mod laws;
mod linking;
mod systems;

pub use fault::UnitFault;
pub use systems::{UnitSystem, linked_system};

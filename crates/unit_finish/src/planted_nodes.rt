//! Nodes that are made anew from the trees under bodies, so that each one is the child of one at most.
mod copying;
mod growing;
mod kinds;
mod placing;
mod planting;

pub use planting::{Planted, plant};

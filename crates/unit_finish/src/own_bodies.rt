//! The bodies of automatic objects, by their leaves.
mod bodies;

pub use bodies::with_own_bodies;

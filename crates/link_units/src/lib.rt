//! One program out of several units, or the first fault of linking them (C11 5.1.1.2, 6.2.2, 6.2.7, 6.9).
#![tactic(auto)]

pub mod link_entities;
pub mod link_makers;
pub mod link_whole;
pub mod linking;
pub mod nodes;

pub use linking::{link, link_entries};

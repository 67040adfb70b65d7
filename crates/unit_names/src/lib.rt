//! What the names and the compound literals of a unit declare (C11 6.2.1 to 6.2.4, 6.2.7, 6.5.2.5, 6.7, 6.9).
#![tactic(auto)]

mod bodies;
mod choosing;
mod declared;
mod firsts;
mod internal;
mod list;
mod literals;
mod owners;
mod storages;
mod types;

pub use list::declared_names;
pub use literals::{declared_literals, literal_entries};

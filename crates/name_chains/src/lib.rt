//! For each declaration of a name those that are seen where it is made (C11 6.2.1, 6.2.2), in lists that share their beginnings.
#![tactic(auto)]

mod building;
mod chains;
mod links;
mod reading;
mod scopes;
pub mod symbol_lists;
mod symbols;

pub use building::{NameChains, Seen, name_chains};
pub use links::{Link, Links, list_of};
pub use reading::{declared_at, in_scope_link, linked_link, typing_link};
pub use symbols::symbol_chains;

// C's types: terms, tags, sizes and node trees.
#![tactic(auto)]

mod index;
pub mod key;
pub mod layout;
mod parts;
pub mod table;
pub mod term;

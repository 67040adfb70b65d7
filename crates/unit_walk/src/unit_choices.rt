//! What the rows of statements are told of a unit (C11 6.8): the cases and the defaults before a node, kept from node to node, and what is
//! found of its names once.
mod choices;
mod names;

pub use choices::{no_choices, note};
pub use names::{name_kinds, names_are_ascii};

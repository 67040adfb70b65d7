//! The entities of compound literals, from their places in a syntax tree and their core nodes.
mod entities;

pub use entities::push_entities;

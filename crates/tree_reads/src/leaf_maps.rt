//! Numbers by the leaves of a syntax tree, found without a look through a list.
mod map;

pub use map::LeafMap;

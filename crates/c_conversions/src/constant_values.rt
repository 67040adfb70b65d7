//! Values of integer constant expressions at syntax nodes (C11 6.6), with the leaf that shows why there is none.
mod constants;
mod places;

pub use constants::{constant_at, constant_in, leaf_of_node};
pub use places::leaf_of_place;

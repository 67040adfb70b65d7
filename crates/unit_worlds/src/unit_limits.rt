//! Limits of a unit's types (C11 5.2.4.1): a table in which each type is small while types are added, so that what is made of its types is
//! within the limits too; and which tags hold a structure that ends in an array without a length (6.7.2.1p3).
pub mod laws;
mod small;
mod steps;
mod unions;

pub use small::new_types_are_small;
pub use steps::note_behind;
pub use unions::{has_open, open_flags};

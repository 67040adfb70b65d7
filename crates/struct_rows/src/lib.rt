//! Completing structures and unions (C11 6.7.2.1).
#![tactic(auto)]

mod completion;
pub mod laws;
mod rows;
pub mod tag_types;
mod taking;

pub use completion::{complete, is_small_type};
pub use rows::{is_union, struct_row};
pub use taking::takes;

//! Rows of enumerations and enumerators, of static assertions and of alignments (C11 6.7.2.2, 6.7.2.3, 6.7.5, 6.7.10).
#![tactic(auto)]

mod assertions;
mod enumerations;
mod specifiers;
pub mod tag_numbers;

pub use assertions::{align_specifier, assert_row};
pub use enumerations::enumerator_row;
pub use specifiers::{SeenTag, enum_row, named_tag};

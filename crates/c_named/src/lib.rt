//! Rows of declarators with what their declarations may say of the names that they declare (C11 6.2.2, 6.7, 6.9.1).
#![tactic(auto)]

mod again;
mod completeness;
mod definitions;
mod internal;
mod named;
mod places;
mod rows;
mod said;
mod words;

pub use rows::{Around, declarator_row};
pub use said::Said;

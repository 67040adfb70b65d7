//! The numbers of structures and unions, and what is known of each specifier's tag before the rows (C11 6.7.2.3).
mod declaring;
mod numbers;
mod seen;
mod specifiers;
mod tags;

pub use declaring::{Declaring, meanings, tag_declared};
pub use tags::{Numbered, Tags, number_tags};

//! From expressions of C11, as they stand in a unit, to typed core trees in another unit.
#![tactic(auto)]

mod expression;
pub mod known_tags;
pub mod literal_entities;
mod reaching;
mod telling;

pub use crate::known_tags::{Known, Meaning};
pub use core_nodes::CheckFault;
pub use expression::check_expression;
pub use telling::is_told;

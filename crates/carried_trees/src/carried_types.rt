//! Types of one table in another, where tags have other numbers: the types themselves, new tags, and members of tags.
mod completing;
mod opening;
mod telling;
mod types;

pub use completing::complete_tags;
pub use opening::open_tag;
pub use telling::are_parts_told;
pub use types::{CarriedTypes, carried_types};

//! The structure around a specifier in a structure's members, and its place there.
mod around;
mod texts;

pub use around::{has_members, member_around, position_in, structure_around};
pub use texts::{member_key, named_key, tagged_key};

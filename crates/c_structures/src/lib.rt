#![tactic(auto)]

mod before;
mod bits;
mod earlier;
mod fields;
mod joined;
pub mod laws;
mod lists;
mod members;
mod names;
mod places;
mod rows;

pub use before::{Cursor, MembersBefore};
pub use earlier::members_before;
pub use fields::plain_field;
pub use joined::listed_member;
pub use lists::MemberLists;
pub use members::{member_declaration, members_among, members_row};
pub use names::MemberNames;
pub use rows::field_row;

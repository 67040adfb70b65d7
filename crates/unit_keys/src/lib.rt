//! Parts of the keys by which units share structures and unions: the names that are declared with specifiers, which nodes stand in
//! blocks or parameter lists, and the positions of members.
#![tactic(auto)]

mod free;
pub mod given_keys;
mod inner;
mod names;
mod positions;
mod specifiers;
pub mod tag_keys;
mod words;

pub use free::free_names;
pub use inner::inner_flags;
pub use names::{declaration_with, leaves_with};
pub use positions::{parts_of, positions_of};
pub use specifiers::is_specifier;
pub use words::{Words, add_word, has_word};

//! What is known of declarations before an expression, and what the expression itself declares: tags and enumerators.
mod given;
mod known;
mod own;
mod told;
mod under;
mod values;

pub use given::{Given, given_of, known_types};
pub use known::{Known, Meaning};
pub use own::{OwnTags, own_types};
pub use told::{ToldTags, told_tags};
pub use under::nodes_under;
pub use values::own_values;

//! What has been made for the nodes of a syntax tree, by node number.
#![tactic(auto)]

mod boxed;
mod copies;
mod derivation;
mod made;
mod members;
mod parts;
mod results;

pub use boxed::{BoxedDerivation, BoxedList, WordList};
pub use copies::{copied_at, copied_member};
pub use core_tree::held::Number;
pub use derivation::Derivation;
pub use made::{Made, made_at};
pub use members::{members_at, value_at};
pub use parts::{declarator_at, derivation_at, node_at, parameter_at, specified_at, type_at};
pub use results::Results;

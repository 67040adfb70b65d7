//! Specifiers and declarators: the types that they name and make, and the rows of their syntax nodes (C11 6.7.1 to 6.7.7).
#![tactic(auto, using(core_nodes::proofs::IntegerTypes::integers))]

mod declarators;
mod lists;
mod parameters;
mod parts;
mod specifiers;
mod suffixes;
mod types;
mod words;

pub use declarators::{declarator_child, plain_declarator_row, specified_child, type_name_row};
pub use parameters::parameter_row;
pub use parts::{declaration_around, specs_of};
pub use specifiers::{NamedType, specs_row, type_row};
pub use suffixes::suffix_row;
pub use types::{adjusted, derived, derived_once, ends_flexible, may_derive};

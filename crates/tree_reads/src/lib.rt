//! Reads of a unit's tokens and its syntax tree, with the parent of each node found once.
#![tactic(auto)]

mod above;
mod held;
pub mod leaf_maps;
mod lists;
pub mod node_roles;
mod order;
mod parents;
mod reads;
mod syntax;

pub use above::{Above, is_outermost, nearest_above};
pub use lists::{Test, any_where, child_of, count_where, first_where, last_where};
pub use order::first_from;
pub use reads::{
    children_of, has_sign, has_word, is_a, is_leaf, is_name, kind_of, left_of, place_of,
    production_of, sign_of, spelling_of, word_of,
};
pub use syntax::{Syntax, TagNumbers};

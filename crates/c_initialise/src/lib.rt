//! The initialiser that the nodes of a syntax tree are (C11 6.7.9): what the rest of the unit says of them (`facts`), the tree's nodes
//! by their production (`nodes`), and the initialisers, each behind those within it (`reading`), and
//! what they give an object (`whole`).
#![tactic(auto)]

pub mod c_braces;
pub mod facts;
pub mod initial_paths;
mod nodes;
pub mod placed_paths;
pub mod reading;
pub mod whole;

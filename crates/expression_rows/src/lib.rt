//! The row of each production of expressions (C11 6.5): what a node of an expression stands for, over what has been made for the nodes
//! before it and what is looked up around it.
#![tactic(auto)]

mod around;
pub mod c_rows;
pub mod laws;
mod rows;
pub mod whole_rows;

pub use crate::c_rows::Named;
pub use crate::c_rows::lists::{ListParts, list_parts, name_of};
pub use around::Around;
pub use rows::row;

//! The rows of a unit's nodes, one after another.
#![tactic(auto)]

pub mod filling_laws;
mod nodes;
pub mod row_shapes;
pub mod unit_choices;
pub mod unit_rows;
mod units;

pub use units::{Ground, Walked, walk, walk_to};

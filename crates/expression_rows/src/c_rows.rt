//! Rows of primaries and of what stands behind them but calls (C11 6.5.1, 6.5.2): what a node stands for, over what has been made for the
//! nodes before it.
#![tactic(auto, using(core_nodes::proofs::IntegerTypes::integers))]

pub(crate) mod lists;
mod literals;
mod names;
pub mod parts;
mod postfix;
mod primaries;

pub use names::Named;
pub use postfix::{counted, other_post};
pub use primaries::primary_row;

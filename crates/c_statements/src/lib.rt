//! Rows of statements (C11 6.8) over what has been made for their parts.
#![tactic(auto, using(core_nodes::proofs::IntegerTypes::integers))]

mod blocks;
mod cases;
mod choices;
mod fors;
mod jumps;
mod labels;
mod loops;
mod parts;
mod places;
mod returns;
mod simple;

pub use blocks::block_row;
pub use cases::case_row;
pub use choices::{CaseMap, Choices};
pub use fors::{ForParts, for_parts, for_row};
pub use jumps::{break_row, continue_row};
pub use labels::{default_row, goto_row, labelled_row};
pub use loops::{do_row, if_row, switch_row, while_row};
pub use places::own_place;
pub use returns::return_row;
pub use simple::{expression_row, skip_row};

//! Core nodes that are added to a unit one by one: the trees that they stand for, the values of places, promotions and the
//! usual conversions (C11 6.3.1, 6.3.2.1).
#![tactic(auto)]

mod fault;
pub mod integers;
pub mod kept_nodes;
pub mod reads;
pub mod sorts;
pub mod trees;
pub mod values;
pub mod widths;

pub use fault::CheckFault;

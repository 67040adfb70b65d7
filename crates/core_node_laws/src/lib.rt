//! Facts of names, literals, lists and statements in the trees of rows; that rows use each operand's tree once (`count_laws`).
#![tactic(auto)]

pub mod built_unit_laws;
pub mod count_laws;
pub mod fetched_nodes;
pub mod literal_initials;
pub mod literal_nodes;
pub mod marked_trees;
pub mod near_nodes;
pub mod parted_nodes;
pub mod standing_laws;

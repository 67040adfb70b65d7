//! The counting law: the rows use each operand's tree once.
pub mod count_rows;
pub mod laws;
pub mod named_units;
pub mod once_nodes;
pub mod single_nodes;

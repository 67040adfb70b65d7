//! What the rows of syntax trees give is sound: each node of a core tree stands in the row of its kind.
pub mod fixed_trees;
pub mod laws;
pub mod parsed_laws;
pub mod row_trees;
pub mod statement_laws;

//! What the rows of expressions give can be computed where it is constant: each node of a constant stands in its row.
pub mod laws;

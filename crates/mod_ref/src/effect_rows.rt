//! What is answered of all functions.
use sol_model::Rows;

/// What each function of a system may read, and what it may write: row `i` of both belongs to function `i`.
#[derive(Drop)]
pub struct Effects {
    /// The locations that are read.
    pub reads: Rows,
    /// The locations that are written.
    pub writes: Rows,
}

//! One atomic action of one actor on the rows, and what it acts on.
use sol_model::Rows;

/// An atomic action: a row gets a location, the rows are closed, or they are looked at.
#[derive(Clone, Copy, Debug, PartialEq, Eq)]
pub enum Event {
    Or(u32, u32),
    Shut,
    Look,
}

/// The sets of all rows, and whether they were closed.
#[derive(Drop)]
pub struct RowsState {
    pub rows: Rows,
    pub shut: bool,
}

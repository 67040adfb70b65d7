//! What a row's turn tells.

/// A row's turn: what was read of the row, and has gone along each of its edges.
#[derive(Drop)]
pub struct Turn {
    /// The number of the row.
    pub row: u32,
    /// The words of the row that were read; the others are empty here. All that they have has gone along each of the row's
    /// edges. There are none where the row has nothing new.
    pub done: Vec<u64>,
    /// The number of the first of these words that has something new.
    pub first: usize,
    /// The number behind the last of them, and 0 where none has.
    pub end: usize,
}

//! What a seat knows.
use sol_model::System;
use std::collections::LinkedList;

/// What a seat knows. It is for contracts alone: no value of it is ever made, so it costs nothing when a program runs.
/// In a clause its numbers have no bound and its lists any length.
pub struct View {
    /// The system for which the table was made.
    pub system: System,
    /// The words of the rows, as far as they were seen: word `row * width + i` holds locations `64 * i` to `64 * i + 63`
    /// of the row, the lowest bit first.
    pub seen: LinkedList<u64>,
    /// How many `fetch_or` steps the seat and those that met it have made, on words of rows and on the closing word.
    pub ors: u64,
    /// How many of these were on the closing word.
    pub shuts: u64,
    /// How often the seat has loaded the closing word.
    pub reads: u64,
    /// What the last of these loads gave: 0 or 1, and 0 before the first.
    pub last: u64,
    /// Whether the seat has learnt that the closing word is 1.
    pub knows: bool,
    /// The numbers of the words of rows that the seat has loaded since its last load of the closing word, the latest
    /// first.
    pub recent: LinkedList<u64>,
    /// What the seat's last `fetch_or` on a word of a row found there, and 0 before the first.
    pub found: u64,
    /// The seat's part of the whole, a fraction above 0, is `part / 2 ^ halvings`.
    pub part: u64,
    /// The power of two under it.
    pub halvings: u64,
    /// Whether the seat can still step: one that met another can't.
    pub live: bool,
}

//! What a sender or the taker knows.
use crate::ask::Ask;
use alias_query::Question;
use std::collections::LinkedList;

/// What a sender or the taker knows: its roles, and the list of each. It is for contracts alone: no value of it is ever
/// made, so it costs nothing when a program runs. In a clause its lists have any length.
pub struct View {
    /// Whether it sends as sender 0.
    pub first: bool,
    /// Whether it sends as sender 1.
    pub second: bool,
    /// Whether it takes.
    pub takes: bool,
    /// The questions that sender 0 has sent, in order; none where it isn't sender 0.
    pub sent_first: LinkedList<Question>,
    /// The questions that sender 1 has sent, in order; none where it isn't sender 1.
    pub sent_second: LinkedList<Question>,
    /// What was taken, in order; nothing where it doesn't take.
    pub taken: LinkedList<Ask>,
}

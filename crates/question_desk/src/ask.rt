//! Questions on their way.
use alias_query::Question;

/// A question on its way: its sender, 0 or 1, and its number among that sender's questions, from 0.
#[derive(Clone, Copy, Debug, PartialEq, Eq)]
pub struct Ask {
    pub sender: u32,
    pub number: u32,
    pub question: Question,
}

/// There was no room at the desk; the question comes back.
#[derive(Clone, Copy, Debug, PartialEq, Eq)]
pub struct Full {
    pub question: Question,
}

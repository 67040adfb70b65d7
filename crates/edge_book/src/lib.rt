//! Inclusion edges between rows, each once and in order of arrival, and the edges that one constraint demands for one
//! member of a row (Andersen 1994, section 4.4).
#![tactic(auto)]

mod book;
mod effects;
/// Lists of pairs of rows that grow by the edges of one kind.
pub mod gather;
mod leaving;
mod members;
mod set;

pub use book::PairBook;
pub use members::in_order;
pub use set::PairSet;

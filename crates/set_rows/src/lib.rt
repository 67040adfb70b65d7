//! Growing sets in shared words: each row of a system's sets is words of bits that any number of threads load and add
//! to, one atomic step a call. A rule says what holds between any two steps, whichever thread makes them.
#![tactic(auto)]

mod copy;
pub mod rows_core;
mod rule;
mod seat;
mod steps;
mod table;
mod view;

pub use seat::RowSeat;
pub use table::RowTable;
pub use view::View;

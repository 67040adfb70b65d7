//! What one thread does between two rounds of workers: what is new in rows brings new edges and facts, these go to their
//! rows, and the rows that have grown are told.
#![tactic(auto)]

mod extent;
mod growth;
mod settling;

pub use extent::{Extent, NOWHERE};
pub use growth::{rows_to_do, still_grown};
pub use settling::{Ground, Progress, begin, settle};

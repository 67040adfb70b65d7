//! The rows machine: which facts may be added to growing sets, and when the sets may be closed.
//! It states Andersen's inclusion rules (Andersen 1994, section 4.4) one fact at a time.
mod event;
mod given;
mod given_calls;
pub mod laws;
mod machine;

pub use event::{Event, RowsState};
pub use machine::{after, licensed};

//! What new members of a row demand (Andersen 1994, section 4.4): the edges that join a book, and the facts. Each rule
//! is read again for the new members alone; where a rule needs two facts at once, new members are paired with all and
//! all with new.
#![tactic(auto)]

mod books;
mod calls;
mod effects;
mod forms;
mod lists;
mod pairs;
mod reading;
mod renewing;
mod starting;
mod words;

pub use reading::readers;
pub use renewing::{Grown, renew};
pub use starting::start;
pub use words::row_words;

//! What is said of a declared name by the declarations of its unit (C11 6.2.1, 6.2.2).
mod internal;
mod leaves;
mod opening;
mod sayings;

pub use opening::{completed_flags, open_names};
pub use sayings::said_of;

//! The summary of a generated program: how large it is, and how large its report is.
#![tactic(auto)]

mod systems;
mod texts;

pub use systems::summary_of_system;
pub use texts::summary;

// The functions of the library that read and write characters.
#![tactic(auto)]

mod reading;
pub mod texts;
mod writing;

pub use writing::text_of;

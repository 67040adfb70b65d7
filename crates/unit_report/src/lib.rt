//! The report of units: the least solution of its program's system, by workers on shared rows, as text.
#![tactic(auto)]

mod names;
pub mod report_json;
pub mod report_text;
mod reporting;
mod sharing;
mod solving;
pub mod unit_answers;
pub mod unit_system;

pub use names::strings_of;
pub use reporting::{report_of_system, report_of_units};
pub use solving::{Solved, solve_on_rows};

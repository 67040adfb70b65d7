// The top call: from the words of the command line to a report.
#![tactic(auto)]

pub mod covered_reports;
mod form;
mod input;
pub mod laws;
mod output;
mod reading;
mod refusals;
mod running;
mod side;
mod solved;
mod top;

pub use top::analyse;
pub use unit_report::Solved;

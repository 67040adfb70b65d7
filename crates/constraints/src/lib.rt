// The whole system of inclusion constraints of a program.
#![tactic(auto)]

mod copies;
mod facts;
mod fault;
mod functions;
mod list;
mod owned;
mod start;
mod types;
mod whole;

pub use fault::SystemFault;
pub use whole::system;

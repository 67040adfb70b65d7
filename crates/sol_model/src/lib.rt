// Inclusion constraints over the rows of locations and nodes, and their least solution (Andersen 1994, chapter 4; for
// members of objects Pearce, Kelly and Hankin 2007).
#![tactic(auto)]

mod bits;
mod calls;
mod carry;
mod carry_calls;
/// Where locations lead: nodes below them, members, and pairs of nodes of two objects.
pub mod locations;
mod missing;
mod rows;
/// The parts of call sites and functions that the rule of a call reads.
pub mod sites;
mod solve;
mod system;

pub use rows::Rows;
pub use solve::{is_closed, plain_solve};
pub use system::{CallSite, Constraint, Function, LocationFact, System, TypeFact};

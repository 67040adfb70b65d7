// The assignments that a program's nodes demand.
#![tactic(auto)]

pub mod each;
mod initial;
mod kinds;
pub mod laws;
mod normal;
mod rows;
pub mod whole;

pub use normal::{Assignment, Normal};
pub use whole::normalise;

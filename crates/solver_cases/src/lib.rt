//! Systems of inclusion constraints that are written by hand, their rows, solvers, questions, shared rows and reports, against what was
//! worked out on paper. All of it is tests.
#![tactic(auto)]

#[cfg(test)]
mod gates;
#[cfg(test)]
mod order;
#[cfg(test)]
mod programs;
#[cfg(test)]
mod questions;
#[cfg(test)]
mod reading;
#[cfg(test)]
mod reports;
#[cfg(test)]
mod rounds;
pub mod row_cases;
#[cfg(test)]
mod sharing;
#[cfg(test)]
mod solving;
#[cfg(test)]
mod systems;

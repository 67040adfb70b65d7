//! Rows of expressions that rest on conversions: equality, choices, assignments, casts and calls (C11 6.5.2.2, 6.5.4, 6.5.9, 6.5.15,
//! 6.5.16).
#![tactic(auto)]

pub mod assignments;
pub mod calls;
pub mod choices;
pub mod equality;
mod signatures;

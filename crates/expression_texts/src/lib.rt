//! Expressions as text, in a unit with some objects, and what is answered of them, for tests.
#![tactic(auto)]

pub mod texts;

//! The text of a run of the reference machine: what its steps note, by the names of places, and how it ends.
#![tactic(auto)]

pub mod laws;
mod lines;
mod names;
mod text;

pub use text::{RunText, run_text};

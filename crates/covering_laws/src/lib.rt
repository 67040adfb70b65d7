//! What memory, rows and library calls leave covered.
#![tactic(auto)]

pub mod calm_effects;
pub mod covered_library;
pub mod covered_memory;
pub mod covered_needs;
pub mod covered_outside;
pub mod covered_rows;
pub mod covered_state;
pub mod covered_types;
pub mod grown_programs;
pub mod object_contents;

// The state of the machine: what frames have still to do, and the values that they have.
#![tactic(auto)]

pub mod doors;
pub mod frames;
pub mod items;
pub mod lists;
pub mod notes;
pub mod ref_types;
pub mod run_words;
pub mod state;
pub mod values;

// Whether a state of the machine stands within given sets.
#![tactic(auto)]

pub mod bare;
pub mod covering;
pub mod frames;
pub mod laws;

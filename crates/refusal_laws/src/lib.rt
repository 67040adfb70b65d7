//! That no row says of what stands at its node that it isn't built.
#![tactic(auto)]

pub mod laws;

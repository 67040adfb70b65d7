//! Where a run stops for a bad call, `stop_places` lists the node; where it does for a type that doesn't fit, it lists the node too, or
//! there is a cause that is named. These functions do nothing, and their contracts are the laws.
#![tactic(auto)]

pub mod causes;
pub mod laws;

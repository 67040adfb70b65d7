//! Laws of linked programs whose units are valid, and that two locations have two names (`location_laws`): these functions do nothing, and
//! their contracts are the laws.
#![tactic(auto)]

pub mod alike_laws;
pub mod call_laws;
pub mod embedded_laws;
pub mod initial_laws;
pub mod laws;
pub mod link_laws;
pub mod location_laws;
pub mod main_laws;
pub mod merged_laws;
pub mod node_laws;
pub mod return_laws;
pub mod row_laws;
pub mod sized_laws;
pub mod system_laws;
pub mod valid_laws;

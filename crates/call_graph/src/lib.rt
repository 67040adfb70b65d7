// The call graph of a solution: which functions a call reaches, and the graph of callers and callees (Andersen 1994,
// chapter 4: calls through pointers are resolved by the sets of the functions' locations).
#![tactic(auto)]

mod edges;
mod order;
pub mod row_members;
pub mod system_check;
mod targets;
mod whole;

pub use targets::is_target;
pub use whole::graph;

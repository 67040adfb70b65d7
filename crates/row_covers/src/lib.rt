// Whether cells, instances and the values of nodes stand in the sets of their rows, and what stands in the call graph.
#![tactic(auto)]

pub mod cells;
pub mod edges;
pub mod objects;
pub mod parts;
pub mod scene;
pub mod targets;
pub mod values;

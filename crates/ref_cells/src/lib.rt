// Cells of objects by path, the types of objects and places, and cells put under a path, as the reference machine has them.
#![tactic(auto)]

pub mod cells;
pub mod fill;
pub mod instance;
pub mod numbers;
pub mod order;
pub mod places;
pub mod putting;
pub mod wholes;

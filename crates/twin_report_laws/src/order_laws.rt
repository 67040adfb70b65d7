//! What stands in the order of places, as one relation, and what definitions that walk along lists give (`walk_laws`): these functions do
//! nothing, and their contracts are the laws.
pub mod laws;
pub mod walk_laws;

//! What each function of a program may read and write, by itself and through all that it calls: the sets MOD and REF (Banning
//! 1979; Cooper and Kennedy 1988), over the least solution of a program's system.
#![tactic(auto)]

mod access;
mod bodies;
mod class_edges;
mod classes;
mod effect_rows;
mod ground;
mod inserting;
mod library_calls;
mod order;
mod spreading;
mod ways;
mod whole;

pub use access::Access;
pub use effect_rows::Effects;
pub use whole::effects;

//! Laws of the systems of programs: these functions do nothing, and their contracts are the laws.
pub mod demand_laws;
pub mod fact_laws;
pub mod filled_laws;
pub mod item_laws;
pub mod laws;
pub mod parameter_laws;

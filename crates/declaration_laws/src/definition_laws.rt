//! That what stands in blocks stands in the definition of a function, which is the nearest one above it.
pub mod block_laws;
pub mod earlier_initialisers;
pub mod function_definitions;
pub mod function_origins;
pub mod initialiser_laws;
pub mod laws;
pub mod linkage_laws;
pub mod own_initialisers;
pub mod parameter_lists;
pub mod scope_laws;
pub mod single_initialisers;

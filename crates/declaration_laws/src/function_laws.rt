//! What stands in the bodies of the functions of a unit that is built from a text.
pub mod body_laws;
pub mod body_returns;
pub mod case_laws;
pub mod function_bodies;
pub mod laws;
pub mod named_definitions;
pub mod result_laws;

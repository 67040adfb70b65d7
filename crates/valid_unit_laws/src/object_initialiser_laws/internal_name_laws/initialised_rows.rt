//! What initialisers say of the rows of nodes: a function that does nothing, whose contract is that law.
pub mod laws;

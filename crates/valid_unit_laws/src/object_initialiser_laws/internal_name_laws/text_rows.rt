//! Nodes of units that are made of texts: a function that does nothing, whose contract is that law.
pub mod laws;

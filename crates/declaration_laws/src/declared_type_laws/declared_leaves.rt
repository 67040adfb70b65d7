//! Where declared names stand: a function that does nothing, whose contract is that law.
pub mod laws;

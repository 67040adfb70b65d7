//! In which scopes names with linkage are declared and seen: a function that does nothing, whose contract is that law.
pub mod laws;

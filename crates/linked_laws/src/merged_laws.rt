//! Laws of tables that are merged from units': these functions do nothing, and their contracts are the laws.
pub mod laws;

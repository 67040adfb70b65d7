//! Types of a table by their terms.
pub mod laws;

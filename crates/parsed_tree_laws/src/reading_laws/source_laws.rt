//! Laws of a unit's source: that it has one reading, and what its tokens and its bound names are to its rows.
pub mod laws;

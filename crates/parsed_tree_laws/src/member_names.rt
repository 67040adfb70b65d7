//! What the rows of fields say of the members of one structure or union: their names differ.
pub mod laws;

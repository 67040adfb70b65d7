//! Keeps the nodes of one tree out of those that were added to a unit last, and drops the others: nodes that were read and replaced, as
//! null constants.
mod copies;
mod keeping;
mod marks;

pub use keeping::keep_under;

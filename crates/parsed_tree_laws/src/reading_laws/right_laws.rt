//! Laws of right units: two units that are right for one source are alike, but for the numbers of their entities and nodes.
pub mod laws;

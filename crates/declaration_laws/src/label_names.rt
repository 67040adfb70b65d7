//! What the resolution of names says of labels.
pub mod laws;

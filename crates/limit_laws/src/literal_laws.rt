//! What the reading of a unit says of its constants and strings: the rows of its primaries are built whole.
pub mod laws;

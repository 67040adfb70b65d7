//! Laws of reading a text: its tokens, its syntax tree and its source are one.
pub mod laws;
pub mod numbered_laws;
pub mod right_laws;
pub mod source_laws;

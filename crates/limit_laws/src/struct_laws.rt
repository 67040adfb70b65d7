//! What the rows before a specifier say of its tag and its list of members.
pub mod laws;

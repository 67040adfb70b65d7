//! That types are within the limits (C11 5.2.4.1) wherever the rows of a parsed unit fit, so that no row needs to ask.
#![tactic(auto)]

pub mod laws;
pub mod literal_laws;
pub mod member_laws;
pub mod struct_laws;

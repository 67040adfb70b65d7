//! Which parts the nodes of a parsed tree have, how many, in which order; that what is read is read in one way (`reading_laws`).
#![tactic(auto)]

pub mod counted_parts;
pub mod family_laws;
pub mod grown_parts;
pub mod member_names;
pub mod nesting_laws;
pub mod ordered_parts;
pub mod placed_laws;
pub mod reading_laws;
pub mod sense_laws;
pub mod sign_parts;
pub mod span_laws;
pub mod statement_shapes;

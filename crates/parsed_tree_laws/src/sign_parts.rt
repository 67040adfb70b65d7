//! Which parts the nodes of a parsed tree have, in order: a function that does nothing, whose contract is that law.
pub mod laws;

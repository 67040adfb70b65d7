//! Where a unit that is made of a parsed tree's senses initialises its objects.
pub mod laws;

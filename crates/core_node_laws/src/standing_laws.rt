//! Where the statements of a unit stand that is made of the senses of a whole tree.
pub mod laws;

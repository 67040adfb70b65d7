//! The initialisers of objects that live for the whole run, in a unit that is built.
pub mod laws;

//! Automatic objects of a unit that is built of a text are initialised in their owners' bodies.
pub mod laws;

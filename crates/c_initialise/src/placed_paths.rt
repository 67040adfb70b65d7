//! Where an initialiser puts its values: a law of `c_inits`, as the contract of a function that does nothing.
pub mod laws;

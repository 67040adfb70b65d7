//! The sizes of declared objects: a function that does nothing, whose contract is that law.
pub mod laws;

//! The objects and functions of a linked program.
pub mod entities;
pub mod types;
pub mod uses;

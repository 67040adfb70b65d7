//! Whether the locations of a program have distinct names.
mod differ;

pub use differ::names_differ;

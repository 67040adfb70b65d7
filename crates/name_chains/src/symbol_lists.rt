//! The declarations of the ordinary names of a unit by their symbols, in order (C11 6.2.1).
mod lists;
mod maps;

pub use lists::SymbolLists;

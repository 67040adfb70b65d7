//! The types of a unit's structures and unions before its rows (C11 6.7.2.3).
mod opening;

pub use opening::open_types;

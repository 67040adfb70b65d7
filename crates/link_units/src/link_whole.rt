//! The entities of the program that units are, or the first fault of linking them.
pub mod entries;
pub mod single;

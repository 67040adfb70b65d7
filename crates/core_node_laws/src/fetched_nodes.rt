//! Facts of the values of places and of calls, in all trees that rows give.
pub mod laws;

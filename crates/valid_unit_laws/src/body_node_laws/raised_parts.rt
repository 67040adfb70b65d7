//! That the unit which is put together of the parts of a walk initialises each object once.
pub mod laws;

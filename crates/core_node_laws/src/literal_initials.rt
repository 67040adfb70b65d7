//! Where initialisers stand in the trees that rows give.
pub mod laws;

//! What the names declare that the trees of bodies have.
pub mod laws;

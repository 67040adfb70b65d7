//! What initialises what lives for the whole run.
pub mod built_filled;
pub mod fixed_laws;
pub mod static_literals;

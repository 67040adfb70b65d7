//! Binds each use of a name, tag or label to its declaration (C11 6.2.1, 6.2.3).
#![tactic(auto)]

mod binding;
mod kinds;
pub mod laws;
mod places;
mod resolving;

pub use kinds::{Declared, Kind, NameFault};
pub use resolving::{Bound, resolve};

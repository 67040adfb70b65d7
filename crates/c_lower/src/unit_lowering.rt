//! From the walk over a unit's tree to the unit (C11 6.5 to 6.9).
mod lowering;

pub use lowering::lower;

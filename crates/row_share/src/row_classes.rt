//! The smallest row of each row's class.
mod copies;
mod gather;
mod inflow;
mod onward;
mod order;
mod smallest;

pub use smallest::representatives;

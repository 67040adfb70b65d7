//! The members of structures and unions by their names (C11 6.5.2.3, 6.7.2.1p13).
pub mod laws;
mod members;
mod steps;
mod ways;

pub use members::{has_members, member_of};
pub use steps::member_refusal;
pub use ways::way_to;

//! The members of a row of sets as a list, in order.
mod members;

pub use members::members_of;

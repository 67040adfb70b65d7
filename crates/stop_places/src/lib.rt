// Where the reference machine may stop for a type: each node that may read, write or lead on by a type that an object isn't
// of (C11 6.5p7), and each call that may reach what isn't a function of its type (6.5.2.2p9), as the sets of a solution show it.
#![tactic(auto)]

mod far;
mod fits;
mod list;
mod loose;
mod mismatch;
mod sight;
mod tables;
mod targets;

pub use list::{Stop, stops};

//! The keys that the tags of a unit get, by which units share structures and unions.
mod declaring;
mod flags;
mod given;
mod kept;
mod placed;

pub use given::keys_of;

// Whether a system of inclusion constraints is valid. The calls that take a system need a valid one; what builds systems
// by hand, as tests do, can ask here.
mod calls;
mod constraints;
mod facts;
mod valid;

pub use valid::is_valid;

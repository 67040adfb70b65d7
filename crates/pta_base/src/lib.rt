// What every crate shares: places, the kinds of what is not accepted, library effects, the traits of the outside,
// and lists that clauses see as lists.
#![tactic(auto)]

mod effect;
mod gate;
mod kind;
mod listing;
mod memory;
mod memory_sink;
mod memory_units;
mod outside;
mod place;
mod real;
mod steps;
mod text;

pub use effect::Effect;
pub use gate::Gate;
pub use kind::Kind;
pub use listing::Listing;
pub use memory::OutOfMemory;
pub use memory_sink::MemorySink;
pub use memory_units::MemoryUnits;
pub use outside::{Failed, Sink, Units};
pub use place::Place;
pub use real::{FileUnits, StreamSink};
pub use text::Text;

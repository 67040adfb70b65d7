//! What `--stops` prints: the places where the machine may stop for a type, as lines.
mod lines;
mod systems;

pub use lines::stops_text;
pub use systems::stops_of_system;

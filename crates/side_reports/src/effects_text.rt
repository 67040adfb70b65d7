//! The text of what each function of a program may read and write.
mod held;
mod lines;
mod systems;

pub use lines::effects_text;
pub use systems::effects_of_system;

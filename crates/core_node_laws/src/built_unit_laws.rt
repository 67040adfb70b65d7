//! What a unit that is made of a walk is: its rows, values, sizes, runs.
pub mod align_laws;
pub mod built_laws;
pub mod built_parts;
pub mod built_rows;
pub mod built_standing;
pub mod built_units;
pub mod lasting_literals;
pub mod literal_types;
pub mod parameter_bodies;
pub mod run_laws;
pub mod tag_sizes;
pub mod unlinked_laws;
pub mod value_laws;

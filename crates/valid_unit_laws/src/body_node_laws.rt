//! Whose the nodes under bodies are, when they are made anew.
pub mod known_initials;
pub mod known_names;
pub mod own_initials;
pub mod parts_initialise;
pub mod parts_named;
pub mod raised_parts;

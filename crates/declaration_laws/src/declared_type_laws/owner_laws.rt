//! Names and literals of locals, and the lists of blocks, in a unit that is made of the senses of a whole tree.
pub mod around_runs;
pub mod automatic_runs;
pub mod held_parts;
pub mod held_runs;
pub mod internal_laws;
pub mod laws;
pub mod left_laws;
pub mod list_laws;
pub mod owned_laws;
pub mod run_initialisers;

// The effects of the library's functions on memory.
#![tactic(auto)]

pub mod effect;
pub mod memory_laws;
pub mod ref_alloc;
pub mod rows;
pub mod text_laws;

//! That what covered library calls take is there in each covered state: these functions do nothing, and their contracts are the laws.
pub mod laws;

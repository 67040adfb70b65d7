//! That the start is covered (`covered_start`), that each step of the reference machine keeps what the sets cover, and so each run: these
//! functions do nothing, and their contracts are the laws.
pub mod covered_start;
pub mod laws;

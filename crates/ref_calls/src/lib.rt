// Calls: which functions they reach, what those of the library do, and the functions that are kept for the program's end.
#![tactic(auto)]

pub mod calls;
pub mod ending;
pub mod library;
pub mod lists;
pub mod reached;
pub mod signatures;

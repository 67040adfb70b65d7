//! The rows of a system, from those of the smaller system that was solved for it: each row has the set of the row that it shares.
mod solution;
mod words;

pub use solution::whole_solution;

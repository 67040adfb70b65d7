//! The law of alignments: a function that does nothing, whose contract it is.
pub mod laws;

// The words of a run.
pub mod words;

pub use words::{WordsFault, words_in};

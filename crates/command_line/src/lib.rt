//! The words of the command line: which of them are right, and the command that right words give. They are read as a simple
//! command of `clap`, without help and version: `--workers N`, `--ask UNIT`, `--desk`, `--json`, `--gen N`, `--run N`,
//! `--effects`, `--stops`, `--entry NAMES` and units, in any order.
#![tactic(auto)]

mod builder;
mod command;
mod entry_word;
mod fault;
mod number;
mod options;
mod parse;
mod reading;
mod unit_word;
mod values;

pub use command::Command;
pub use fault::WordsFault;
pub use parse::parse_words;

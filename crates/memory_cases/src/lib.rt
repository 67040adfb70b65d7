//! Memories, calls of the library and runs of the reference machine. Scripts on memories over a table of types, against answers from paper;
//! and runs, each state of which the least sets cover, beside sets that don't cover one.
#![tactic(auto)]

pub mod case_types;
#[cfg(test)]
mod covered;
#[cfg(test)]
mod page;
#[cfg(test)]
mod runs;
#[cfg(test)]
mod scripts;
#[cfg(test)]
mod shown;
#[cfg(test)]
mod steps;
#[cfg(test)]
mod tests;
#[cfg(test)]
mod watched;
#[cfg(test)]
mod words;
#[cfg(test)]
mod world;

//! Texts, and the tokens, the trees, the constants and the first faults that they have, written by hand or taken from GCC; and calls that
//! reach the outside: files, memory that stands for them, and the words of a command line.
#![tactic(auto)]

#[cfg(test)]
mod calls;
#[cfg(test)]
mod commands;
#[cfg(test)]
mod fields;
#[cfg(test)]
mod files;
#[cfg(test)]
mod grammar;
#[cfg(test)]
mod lexing;
#[cfg(test)]
mod literals;
#[cfg(test)]
mod memory;
#[cfg(test)]
mod parsing;
#[cfg(test)]
mod streams;
#[cfg(test)]
mod units;

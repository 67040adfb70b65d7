//! Which cells of memory a run changes: a step changes those alone that it writes, so what functions may write covers each change. These
//! functions do nothing, and their contracts are the laws.
#![tactic(auto)]

pub mod laws;

// The calls of a program, and the numbers by which calls and functions of one type are told.
#![tactic(auto)]

pub mod calls;
pub mod signatures;
pub mod sites;

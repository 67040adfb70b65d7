// The start of a run: the objects that live for the whole run, their fixed initialisers, and the steps without a frame.
#![tactic(auto)]

pub mod begin;
pub mod entries;
pub mod fixed;
pub mod handed;
pub mod objects;
pub mod standing;
pub mod start;

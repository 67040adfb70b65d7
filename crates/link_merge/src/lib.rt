//! One table for the types of several units, in which the structures and unions that units share are one (C11 6.2.7).
#![tactic(auto)]

pub mod complete;
pub mod counted;
pub mod index;
pub mod keys;
pub mod kids;
pub mod labels;
pub mod lists;
pub mod members;
pub mod merging;
pub mod parted;
pub mod refine;
pub mod split;
pub mod spread;
pub mod tags;

pub use merging::merge;

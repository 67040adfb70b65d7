// What the rules of C ask of types: which conversions there are, which types agree, what a type holds and measures.
#![tactic(auto)]

pub mod conversions;
pub mod kinds;
pub mod members;
pub mod numbers;
pub mod sizes;
pub mod term_types;

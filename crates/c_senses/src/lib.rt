//! What each node of a syntax tree stands for: definitions alone.
#![tactic(auto)]

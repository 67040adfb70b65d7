//! Where each node of a syntax tree stands, and what it does to names (C11 6.2.1, 6.2.3).
#![tactic(auto)]

pub mod declarators;
pub mod mentions;
pub mod roles;
pub mod settings;
pub mod symbols;
mod syntax;

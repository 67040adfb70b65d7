//! Rows of initialisers (C11 6.7.9, 6.5.2.5).
#![tactic(auto)]

mod along;
mod fixed;
mod numbers;
pub mod objects;
mod placing;
pub mod rows;
pub mod storage;
mod values;

// Integer constant expressions over core nodes.
#![tactic(auto)]

mod evaluate;
mod fault;
mod numbers;
mod operators;
mod steps;

pub use evaluate::constant;
pub use fault::ConstFault;
pub use numbers::{convert, converted};

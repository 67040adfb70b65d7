// Whether a unit or a program is valid.
#![tactic(auto)]

mod linkages;
mod unit;
mod valid;

pub use unit::{valid_program, valid_unit};

// The library functions and objects that a program may name.
#![tactic(auto)]

mod row;
mod table;

pub use row::Summary;
pub use table::{effects, name_at, summary};

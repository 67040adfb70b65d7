//! Operators over core nodes: what each makes of the values of its operands, or why it refuses them (C11 6.5.2 to 6.5.14, 6.5.16.2,
//! 6.5.17).
#![tactic(auto)]

pub mod c_members;
pub mod joined;
pub mod members;
pub mod objects;
pub mod operators;
pub mod updates;

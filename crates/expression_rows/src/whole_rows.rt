//! Rows of calls, prefix expressions, casts, choices, assignments and operators (C11 6.5.2 to 6.5.17), where the constants in the parts
//! stand in their rows.
#![tactic(auto, using(core_nodes::proofs::IntegerTypes::integers))]

mod assigning;
mod calling;
mod casting;
mod chains;
mod choosing;
mod operands;
mod prefix;

pub use assigning::assignment_row;
pub use calling::post_row;
pub use casting::cast_row;
pub use chains::binary_row;
pub use choosing::conditional_row;
pub use prefix::unary_row;

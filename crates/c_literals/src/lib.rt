//! What the constants and string literals of C stand for (C11 6.4.4.1, 6.4.4.4, 6.4.5), from their bytes.
#![tactic(auto)]

mod characters;
mod digits;
mod elements;
mod escapes;
mod integers;
pub mod laws;
mod parts;
mod strings;

pub use characters::character_value;
pub use integers::{ConstantType, IntegerConstant, integer_constant, is_in_range};
pub use strings::{is_narrow, push_string};

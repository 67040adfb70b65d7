//! Where a node of a unit's syntax tree stands: in which function, in what kind of initialiser, and what it declares (C11 6.7, 6.9).
#![tactic(auto)]

mod around;
mod declaring;
mod levels;
mod lists;
mod names;
mod statics;

pub use around::{function_around, is_in_variadic, own_name, result_of, returned_type};
pub use declaring::{is_declaring, is_defined_parameter, is_in_for, stands_in_declaration};
pub use lists::{closes_list, is_defined_list, is_listed_parameter};
pub use names::{declared_name, name_in};
pub use statics::{initialised_by, is_in_static, is_static_object};

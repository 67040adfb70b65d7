//! What is looked up around a node of an expression, and the row of the node over it (C11 6.2.1, 6.5, 6.6, 6.7.9p4).
#![tactic(auto)]

mod alone;
mod around;
mod expressions;
pub mod laws;
pub mod name_sayings;
mod named;
mod uses;

pub use around::around_of;
pub use expressions::expression;
pub use named::named_of;
pub use uses::{may_call, may_name};

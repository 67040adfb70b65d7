//! The rows of statements, blocks and the declarations in them (C11 6.7, 6.8), whole.
#![tactic(auto)]

mod declarations;
mod kinds;
pub mod laws;
mod objects;
mod returned;
mod rows;
mod statements;

pub use declarations::{declaration_row, rest_row};
pub use kinds::NameKinds;
pub use objects::is_automatic_object;
pub use returned::returned_type;
pub use rows::{block_row, row};
pub use statements::{Told, statement_row};

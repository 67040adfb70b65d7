//! Rows that share one set. Along a static copy that is all that a row gets, and round a static cycle of copies, rows have
//! equal sets in the least solution (Fähndrich, Foster, Su and Aiken 1998 on cycles; Rountev and Chandra 2000 on equivalent
//! variables), so a system can be solved with one row for all of them.
#![tactic(auto)]

mod reducing;
mod renumber;
pub mod row_classes;
pub mod share_laws;
mod shares;
mod sharing;

pub use reducing::{Reduced, reduce};
pub use shares::Share;
pub use sharing::share;

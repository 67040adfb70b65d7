//! A round of workers on shared rows: in which order its rows have their turns, how they are dealt out, and the pieces of
//! each worker, one row's turn each (Pearce, Kelly and Hankin 2003, on the order of visits).
#![tactic(auto)]

mod dealing;
pub mod delta_prop;
mod joining;
mod ordering;
mod pieces;
mod round;

pub use dealing::dealt;
pub use joining::Told;
pub use ordering::turn_order;
pub use pieces::Round;
pub use round::all_pieces;

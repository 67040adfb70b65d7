//! A desk for questions: two threads send them and a third takes them, each sender's in its order and each once. What
//! was taken is settled once the sets are closed.
#![tactic(auto)]

mod ask;
mod calls;
mod desk;
pub mod desk_rounds;
mod rule;
mod settling;
mod view;

pub use ask::{Ask, Full};
pub use desk::{Desk, Sender, Taker};
pub use settling::{answer_to, settle};
pub use view::View;

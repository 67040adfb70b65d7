// The reference machine: a program's state, and its steps.
#![tactic(auto)]

pub mod choices;
pub mod laws;
pub mod machine;
pub mod prepared;
pub mod standing;
pub mod steps;

pub use machine::Machine;
pub use ref_cells::cells::Reason;
pub use ref_state::frames::Frame;
pub use ref_state::items::Item;
pub use ref_state::notes::Notes;
pub use ref_state::state::StepAnswer;

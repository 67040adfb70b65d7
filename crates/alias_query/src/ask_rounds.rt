//! Questions on the sets of a system while workers let them grow: an asker beside the workers tries each question, and what is open then
//! is asked when the sets are closed.
mod asking;
mod solving;
mod text;

pub use solving::solve_and_ask;
pub use text::answers_text;

//! Questions on the sets of a system while workers let them grow, by way of a desk: two askers beside the workers send them, and a third
//! thread takes and tries them. What is open then is asked when the sets are closed.
mod asking;
mod sending;
mod solving;

pub use solving::solve_and_ask_by_desk;

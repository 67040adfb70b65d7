//! Difference propagation (Pearce, Kelly and Hankin 2007, section 4): in a row's turn only what is new in the row goes
//! along its edges, and only those words are read that may have grown since the row's last turn.
mod along;
mod read;
mod span;
mod turn;
mod work;

pub use along::{carry, list_news};
pub use read::has_more;
pub use span::{NO_SPAN, Span, is_empty, joined, span_of, widen};
pub use turn::Turn;
pub use work::propagate;

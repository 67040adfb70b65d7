//! What a use of a declared name means, kept by its declaration for the uses after it (C11 6.2.3, 6.5.1).
mod remembered;
mod same;
mod steps;
mod types;

pub use remembered::{Memory, Remembered, found_at, nothing_remembered, remember};
pub use same::same_ids;
pub use steps::{TypeSteps, steps_of};
pub use types::{is_type_of, type_made};

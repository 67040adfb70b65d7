//! That what runs hold and call stands on the lines of the report: this function does nothing, and its contract is the law.
pub mod laws;

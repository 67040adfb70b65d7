//! One program out of several units whose types stand in one table, or the first fault of linking them.
pub mod checked;
pub mod counts;
pub mod labels;
pub mod numbers;
pub mod ready;

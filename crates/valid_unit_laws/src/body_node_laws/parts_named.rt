//! The laws of the names of what is planted: functions that do nothing, whose contracts they are.
pub mod laws;

//! The laws of names with linkage: functions that do nothing, whose contracts they are.
pub mod laws;

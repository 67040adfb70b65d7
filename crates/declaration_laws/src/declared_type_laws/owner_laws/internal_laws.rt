//! The laws of internal functions: functions that do nothing, whose contracts they are.
pub mod laws;

//! The laws of function definitions: functions that do nothing, whose contracts they are.
pub mod laws;

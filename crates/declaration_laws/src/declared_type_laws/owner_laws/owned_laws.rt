//! The laws of owners: functions that do nothing, whose contracts they are.
pub mod laws;

//! The laws of the names of definitions: functions that do nothing, whose contracts they are.
pub mod laws;

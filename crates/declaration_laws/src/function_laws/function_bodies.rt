//! The laws of functions' bodies: functions that do nothing, whose contracts they are.
pub mod laws;

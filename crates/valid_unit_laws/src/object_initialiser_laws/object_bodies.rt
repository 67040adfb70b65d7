//! The laws of objects' bodies: functions that do nothing, whose contracts they are.
pub mod laws;

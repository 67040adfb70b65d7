//! The laws of entities that are known before the end: functions that do nothing, whose contracts they are.
pub mod laws;

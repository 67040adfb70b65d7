//! The laws of what is initialised: functions that do nothing, whose contracts they are.
pub mod laws;

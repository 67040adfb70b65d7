//! The laws of objects' initialisers: functions that do nothing, whose contracts they are.
pub mod laws;

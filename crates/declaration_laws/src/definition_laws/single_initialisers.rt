//! The laws of initialisers that are told apart: functions that do nothing, whose contracts they are.
pub mod laws;

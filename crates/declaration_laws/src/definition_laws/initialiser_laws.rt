//! The laws of initialisers and their declarators: functions that do nothing, whose contracts they are.
pub mod laws;

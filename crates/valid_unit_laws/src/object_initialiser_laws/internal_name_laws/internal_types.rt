//! The types of the entities of internal names: functions that do nothing, whose contracts are those laws.
pub mod laws;

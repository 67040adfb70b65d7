//! The laws of what stands at file scope and of what has an owner: functions that do nothing, whose contracts they are.
pub mod laws;

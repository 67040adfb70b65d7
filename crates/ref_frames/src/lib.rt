// Frames: functions entered and left, and the program's end.
#![tactic(auto)]

pub mod entering;
pub mod frames;
pub mod leaving;
pub mod running;
pub mod tops;

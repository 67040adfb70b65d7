//! The answers to a script of questions on units: by the least solution of their program's system, as text.
mod answering;
mod fault;

pub use answering::answers_of_system;
pub use fault::AnswersFault;

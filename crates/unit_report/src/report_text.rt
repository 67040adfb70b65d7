// The report of a program: the sets of its locations, the targets of its calls through pointers and its call graph.
pub(crate) mod calls;
mod edges;
mod fault;
pub mod laws;
pub(crate) mod order;
pub mod pieces;
mod printing;
pub(crate) mod sets;
mod whole;

pub use fault::PrintFault;
pub use printing::{print, write_text};
pub use whole::report;

// The report of a program as JSON: one object with the sets of its locations, the targets of its calls through pointers and its call
// graph.
mod calls;
mod edges;
pub mod laws;
mod names;
mod places;
mod printing;
mod sets;
mod whole;

pub use printing::print_json;
pub use whole::json_report;

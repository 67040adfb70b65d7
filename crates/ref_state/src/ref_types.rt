// The reference machine's own table of types.
pub mod copies;
pub mod types;

pub use types::{LibraryTypes, with_library_types};

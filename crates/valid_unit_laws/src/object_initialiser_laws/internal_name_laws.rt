//! Types and meanings of internal names.
pub mod initialised_rows;
pub mod internal_names;
pub mod internal_types;
pub mod representative_names;
pub mod text_rows;

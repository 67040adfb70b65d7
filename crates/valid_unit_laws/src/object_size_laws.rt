//! Sizes of objects, and how functions are stored.
pub mod entity_sizes;
pub mod function_storage;
pub mod literal_sizes;
pub mod object_sizes;
pub mod parameter_sizes;

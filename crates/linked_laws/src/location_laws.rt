//! Names of locations are distinct; each has one object.
pub mod name_laws;
pub mod name_shapes;
pub mod named_laws;
pub mod object_laws;

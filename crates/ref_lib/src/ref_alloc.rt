// Library functions that make objects and end them, and those that look at no object.
pub mod allocation;
pub mod plain;

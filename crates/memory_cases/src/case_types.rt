//! A table of the types that tests of memory name: scalars, arrays, structures, unions and a bit-field.
#[cfg(test)]
pub mod types;

//! What the nodes of a syntax tree are to its tags: one byte for each, read in one pass over the tree, and then asked instead of it.
mod roles;

pub use roles::{Role, is_boundary_at, is_member_at, is_specifier_at, is_structure_at, roles_of};

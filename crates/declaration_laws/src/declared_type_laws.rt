//! What owns locals and what stands and runs in bodies (`owner_laws`); types and meanings of declared names.
pub mod agreed_internals;
pub mod declared_leaves;
pub mod declared_once;
pub mod declared_uses;
pub mod function_types;
pub mod known_entities;
pub mod linked_names;
pub mod linked_scopes;
pub mod named_rest;
pub mod object_types;
pub mod owned_locals;
pub mod owner_laws;
pub mod plain_names;
pub mod right_nodes;
pub mod seen_onward;
pub mod settled_types;

//! The laws of fields joined: what is made of a text is valid. Before them what objects' sizes are (`object_size_laws`) and that each node
//! of a body is good (`body_node_laws`).
#![tactic(auto)]

pub mod body_node_laws;
pub mod built_valid;
pub mod lowered_laws;
pub mod object_initialiser_laws;
pub mod object_size_laws;
pub mod plain_functions;
pub mod specified_types;

//! Internal names are told apart (`internal_name_laws`), the values of static objects are fixed (`static_value_laws`), each initialiser is
//! the body of its object, and automatic objects are listed once, where they run.
pub mod all_listed;
pub mod block_trees;
pub mod block_uses;
pub mod bodies_fit;
pub mod initial_entities;
pub mod initialised_objects;
pub mod internal_name_laws;
pub mod listed_declarations;
pub mod listed_once;
pub mod listing_blocks;
pub mod object_bodies;
pub mod once_initialised;
pub mod owned_initialisers;
pub mod owners_known;
pub mod placed_initialisers;
pub mod static_value_laws;

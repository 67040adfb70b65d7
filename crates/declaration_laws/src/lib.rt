//! In what order names are declared; labels; the types that declarations give together; what functions are defined and how they return
//! (`function_laws`).
#![tactic(auto)]

pub mod agreed_types;
pub mod declared_type_laws;
pub mod definition_laws;
pub mod function_laws;
pub mod joined_types;
pub mod label_names;
pub mod name_order;
pub mod whole_types;

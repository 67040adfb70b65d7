//! What the declarations of a unit say of the names that they declare (C11 6.2.2, 6.2.4, 6.2.7, 6.7, 6.9.1).
#![tactic(auto)]

mod declaring;
mod initialisers;
mod own;
pub mod remembered_names;
mod types;
mod words;

pub use declaring::{declaration_of, is_at_file, is_defined, is_parameter};
pub use initialisers::{initialiser_for, initialiser_of};
pub use own::{length_given, own_type};
pub use types::{agree, all_together, together, with_length};
pub use words::{has_function_word, has_function_words, has_storage, is_without_storage};

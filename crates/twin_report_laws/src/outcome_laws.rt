//! Texts have one fault of linking, and programs of one text are one but for numbers.
pub mod fault_laws;
pub mod named_by_place;
pub mod text_faults;
pub mod twin_locations;
pub mod twin_programs;
pub mod twin_scripts;
pub mod twin_words;
pub mod used_names;

//! Rows of initialisers and of compound literals (C11 6.5.2.5, 6.7.9): what an initialiser gives an object (`objects`), the type that the
//! object is declared with (`types`), what the declarations before say of it (`agreeing`), and the rows (`rows`, `literals`, `joined`).
#![tactic(auto)]

mod agreeing;
mod joined;
mod literals;
pub mod objects;
mod rows;
mod types;

pub use joined::initial;
pub use literals::items_row;
pub use rows::{init_row, initialised_name};

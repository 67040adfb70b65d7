//! How frames stand on one another where library functions call back (C11 7.22.4.2, 7.22.5): these functions do nothing, and their
//! contracts are the laws.
pub mod laws;

//! Laws of what functions of linked programs return: these functions do nothing, and their contracts are the laws.
pub mod laws;

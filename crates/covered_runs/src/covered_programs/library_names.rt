//! What linking gives of the library's names: these functions do nothing, and their contracts are the laws.
pub mod laws;

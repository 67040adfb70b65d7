//! What the initialisers in bodies are of.
pub mod laws;

//! What makes each external name's object or function, and where the name is used first.
pub mod gathered;
pub mod makers;

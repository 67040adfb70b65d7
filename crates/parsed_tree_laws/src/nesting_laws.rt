//! What stands in what in the tree of a unit that is read: external declarations, blocks and statements.
pub mod laws;

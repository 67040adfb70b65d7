//! Syntax trees.
use crate::children::Children;

/// A node of a syntax tree: a production with its children, or a leaf for a token.
#[derive(Drop)]
pub struct SyntaxNode {
    /// The production's number, or 2^32 - 1 in a leaf.
    pub production: u32,
    /// The number of the first token, or of the token that follows where the node takes none.
    pub token: u32,
    /// The numbers of the children, in the order of the text.
    pub children: Children,
}

/// A syntax tree. The nodes stand in the order in which their productions end, so children have smaller numbers than their
/// parents.
#[derive(Drop)]
pub struct Tree {
    /// The number of the unit.
    pub unit: u32,
    pub nodes: Vec<SyntaxNode>,
    /// The number of the root.
    pub root: u32,
}

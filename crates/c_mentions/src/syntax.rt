//! Reads of a tree's nodes and of the tokens that its leaves stand for.
ghost use Rattle.c_mentions.specs.Syntax as spec;
ghost use Rattle.c_mentions.specs.Syntax.{nodes_of};
ghost use Rattle.std.specs.Prelude.{◌≡◌};

use c_grammar::SyntaxNode;
use c_lexer::{Token, TokenKind};

/// The production of a leaf.
pub(crate) const LEAF: u32 = 4_294_967_295;

/// What stands for the production where there is no node.
const NO_PRODUCTION: u32 = 48;

/// The production of a node.
pub(crate) fn production_at(nodes: &[SyntaxNode], node: u32) -> u32
    ensures { result ≡ spec.production_at (nodes_of nodes.now) node }
{
    match nodes.get(node as usize) {
        Some(node) => node.production,
        None => NO_PRODUCTION,
    }
}

/// The number of a node's first token.
pub(crate) fn token_at(nodes: &[SyntaxNode], node: u32) -> u32
    ensures { result ≡ spec.token_at (nodes_of nodes.now) node }
{
    match nodes.get(node as usize) {
        Some(node) => node.token,
        None => 0,
    }
}

/// The children of a node.
pub(crate) fn children_at<'a>(nodes: &'a [SyntaxNode], node: u32) -> &'a [u32]
    ensures { result.now ≡ spec.children_at (nodes_of nodes.now) node }
{
    match nodes.get(node as usize) {
        Some(node) => node.children.as_slice(),
        None => &[],
    }
}

/// Whether a node is a leaf.
pub(crate) fn is_leaf(nodes: &[SyntaxNode], node: u32) -> bool
    ensures { result ≡ spec.is_leaf (nodes_of nodes.now) node }
{
    production_at(nodes, node) == LEAF
}

/// The kind of a token; behind the last one there is only the end.
pub(crate) fn token_kind(tokens: &[Token], token: u32) -> TokenKind
    ensures { result ≡ spec.token_kind tokens.now token }
{
    match tokens.get(token as usize) {
        Some(token) => token.kind,
        None => TokenKind::End,
    }
}

/// The kind of the token for which a leaf stands; a node that is no leaf has the end's.
pub(crate) fn leaf_kind(tokens: &[Token], nodes: &[SyntaxNode], node: u32) -> TokenKind
    ensures { result ≡ spec.leaf_kind tokens.now (nodes_of nodes.now) node }
{
    if is_leaf(nodes, node) {
        token_kind(tokens, token_at(nodes, node))
    } else {
        TokenKind::End
    }
}

/// Whether a kind of token is an identifier.
pub(crate) fn is_identifier(kind: TokenKind) -> bool
    ensures { result ≡ spec.is_identifier kind }
{
    match kind {
        TokenKind::Identifier => true,
        _ => false,
    }
}

/// Whether a kind of token is the keyword of a position.
fn is_keyword(kind: TokenKind, word: u8) -> bool
    ensures { result ≡ spec.is_keyword kind word }
{
    match kind {
        TokenKind::Keyword(position) => position == word,
        _ => false,
    }
}

/// Whether a kind of token is the punctuator of a position.
fn is_punctuator(kind: TokenKind, sign: u8) -> bool
    ensures { result ≡ spec.is_punctuator kind sign }
{
    match kind {
        TokenKind::Punctuator(position) => position == sign,
        _ => false,
    }
}

/// Whether a node is the leaf of an identifier.
pub(crate) fn is_name(tokens: &[Token], nodes: &[SyntaxNode], node: u32) -> bool
    ensures { result ≡ spec.is_name tokens.now (nodes_of nodes.now) node }
{
    is_identifier(leaf_kind(tokens, nodes, node))
}

/// Whether a node is the leaf of a keyword.
pub(crate) fn is_word(tokens: &[Token], nodes: &[SyntaxNode], node: u32, word: u8) -> bool
    ensures { result ≡ spec.is_word tokens.now (nodes_of nodes.now) node word }
{
    is_keyword(leaf_kind(tokens, nodes, node), word)
}

/// Whether a node is the leaf of a punctuator.
pub(crate) fn is_sign(tokens: &[Token], nodes: &[SyntaxNode], node: u32, sign: u8) -> bool
    ensures { result ≡ spec.is_sign tokens.now (nodes_of nodes.now) node sign }
{
    is_punctuator(leaf_kind(tokens, nodes, node), sign)
}

/// Whether a node is of a production.
pub(crate) fn is_of(nodes: &[SyntaxNode], production: u32, node: u32) -> bool
    ensures { result ≡ spec.is_of (nodes_of nodes.now) production node }
{
    production_at(nodes, node) == production
}

/// The first of a node's children, if it has one.
pub(crate) fn first_child(nodes: &[SyntaxNode], node: u32) -> Option<u32>
    ensures { result ≡ spec.first_child (nodes_of nodes.now) node }
{
    children_at(nodes, node).first().copied()
}

/// Whether a node has a child of a production.
pub(crate) fn has_part(nodes: &[SyntaxNode], node: u32, production: u32) -> bool
    ensures { result ≡ spec.has_part (nodes_of nodes.now) node production }
{
    children_at(nodes, node)
        .iter()
        .any(|child| is_of(nodes, production, *child))
}

/// The first of a node's children that is of a production, if there is one.
pub(crate) fn first_part(nodes: &[SyntaxNode], node: u32, production: u32) -> Option<u32>
    ensures { result ≡ spec.first_part (nodes_of nodes.now) node production }
{
    children_at(nodes, node)
        .iter()
        .copied()
        .find(|child| is_of(nodes, production, *child))
}

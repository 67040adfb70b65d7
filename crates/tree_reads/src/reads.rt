// Reads of nodes and their tokens.
ghost use Rattle.std.specs.Prelude.{◌≡◌, List, ℕ};
ghost use Rattle.c_senses.specs.Tree as spec;
ghost use Rattle.tree_reads.specs.Sources.{source_read};

use crate::syntax::Syntax;
use c_grammar::terminals::spelled;
use c_lexer::{Token, TokenKind};
use pta_base::Place;

const LEAF: u32 = 4294967295;

// The first token of a node.
fn token_of(syntax: &Syntax, node: u32) -> Option<Token>
    ensures { result ≡ spec.token_at (source_read syntax.now) node }
{
    match syntax.tree.nodes.get(node as usize) {
        Some(there) => match syntax.tokens.list.get(there.token as usize) {
            Some(token) => Some(*token),
            None => None,
        },
        None => None,
    }
}

/// The place of a node's first token.
pub fn place_of(syntax: &Syntax, node: u32) -> Place
    ensures { result ≡ spec.place_at (source_read syntax.now) node }
{
    match token_of(syntax, node) {
        Some(token) => Place {
            unit: syntax.tree.unit,
            line: token.line,
            column: token.column,
        },
        None => Place {
            unit: syntax.tree.unit,
            line: 0,
            column: 0,
        },
    }
}

/// The kind of a node's first token.
pub fn kind_of(syntax: &Syntax, node: u32) -> TokenKind
    ensures { result ≡ spec.kind_at (source_read syntax.now) node }
{
    match token_of(syntax, node) {
        Some(token) => token.kind,
        None => TokenKind::End,
    }
}

/// The punctuator that a node's first token is.
pub fn sign_of(syntax: &Syntax, node: u32) -> Option<u8>
    ensures { result ≡ spec.sign_at (source_read syntax.now) node }
{
    match kind_of(syntax, node) {
        TokenKind::Punctuator(sign) => Some(sign),
        TokenKind::Identifier => None,
        TokenKind::Keyword(_) => None,
        TokenKind::Integer => None,
        TokenKind::Floating => None,
        TokenKind::Character => None,
        TokenKind::Text => None,
        TokenKind::End => None,
    }
}

/// The keyword that a node's first token is.
pub fn word_of(syntax: &Syntax, node: u32) -> Option<u8>
    ensures { result ≡ spec.word_at (source_read syntax.now) node }
{
    match kind_of(syntax, node) {
        TokenKind::Keyword(word) => Some(word),
        TokenKind::Identifier => None,
        TokenKind::Punctuator(_) => None,
        TokenKind::Integer => None,
        TokenKind::Floating => None,
        TokenKind::Character => None,
        TokenKind::Text => None,
        TokenKind::End => None,
    }
}

// Whether a token is an identifier.
fn is_identifier(kind: TokenKind) -> bool
    ensures { result ≡ spec.is_identifier kind }
{
    match kind {
        TokenKind::Identifier => true,
        TokenKind::Keyword(_) => false,
        TokenKind::Punctuator(_) => false,
        TokenKind::Integer => false,
        TokenKind::Floating => false,
        TokenKind::Character => false,
        TokenKind::Text => false,
        TokenKind::End => false,
    }
}

/// How a node's first token is spelled.
pub fn spelling_of<'a>(syntax: &Syntax<'a>, node: u32) -> &'a [u8]
    ensures { result.now ≡ spec.spelling_at (source_read syntax.now) node }
{
    match token_of(syntax, node) {
        Some(token) => spelled(syntax.tokens.text, token),
        None => &[],
    }
}

/// The production of a node, which is a leaf's past the tree.
pub fn production_of(syntax: &Syntax, node: u32) -> u32
    ensures { result ≡ spec.production_at (source_read syntax.now) node }
{
    match syntax.tree.nodes.get(node as usize) {
        Some(there) => there.production,
        None => LEAF,
    }
}

/// The children of a node.
pub fn children_of<'a>(syntax: &Syntax<'a>, node: u32) -> &'a [u32]
    ensures { result.now ≡ spec.children_at (source_read syntax.now) node }
{
    match syntax.tree.nodes.get(node as usize) {
        Some(there) => there.children.as_slice(),
        None => &[],
    }
}

/// Whether a node is of a production.
pub fn is_a(syntax: &Syntax, production: u32, node: u32) -> bool
    ensures { result ≡ spec.is_a (source_read syntax.now) production node }
{
    production_of(syntax, node) == production
}

/// Whether a node is a leaf, or none.
pub fn is_leaf(syntax: &Syntax, node: u32) -> bool
    ensures { result ≡ spec.is_leaf (source_read syntax.now) node }
{
    is_a(syntax, LEAF, node)
}

// Whether that is the number.
fn is_number(found: Option<u8>, number: u8) -> bool
    ensures { result ≡ spec.is_number found number }
{
    match found {
        Some(there) => there == number,
        None => false,
    }
}

/// Whether a node is the leaf of a punctuator.
pub fn has_sign(syntax: &Syntax, sign: u8, node: u32) -> bool
    ensures { result ≡ spec.has_sign (source_read syntax.now) sign node }
{
    is_leaf(syntax, node) && is_number(sign_of(syntax, node), sign)
}

/// Whether a node is the leaf of a keyword.
pub fn has_word(syntax: &Syntax, word: u8, node: u32) -> bool
    ensures { result ≡ spec.has_word (source_read syntax.now) word node }
{
    is_leaf(syntax, node) && is_number(word_of(syntax, node), word)
}

/// Whether a node is the leaf of an identifier.
pub fn is_name(syntax: &Syntax, node: u32) -> bool
    ensures { result ≡ spec.is_name (source_read syntax.now) node }
{
    is_leaf(syntax, node) && is_identifier(kind_of(syntax, node))
}

/// The node to the left of what begins with a leaf: in the tree's order it stands directly before that leaf, but for the brace
/// that closes a compound literal's list.
pub fn left_of(syntax: &Syntax, first: u32) -> u32
    ensures { result ≡ spec.left_of (source_read syntax.now) first }
{
    let before = first.saturating_sub(1);
    if is_leaf(syntax, before) {
        first.saturating_sub(2)
    } else {
        before
    }
}

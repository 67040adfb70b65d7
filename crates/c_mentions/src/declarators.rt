//! Declarators: their names and what they make of them (C11 6.7.6).
ghost use Rattle.c_mentions.specs.Declarators as spec;
ghost use Rattle.c_mentions.specs.Syntax.{nodes_of};
ghost use Rattle.std.specs.Prelude.{◌≡◌};

use crate::syntax::{children_at, first_child, first_part, is_name, is_of, is_sign};
use c_grammar::SyntaxNode;
use c_grammar::productions::{DECLARATOR, EITHER, SUFFIX};
use c_lexer::Token;

/// The position of `*` among the punctuators.
const STAR: u8 = 11;

/// The position of `(` among the punctuators.
const LEFT_PARENTHESIS: u8 = 2;

/// What stands next to the name of a declarator: the derivation that is applied first (C11 6.7.6p6).
#[derive(Clone, Copy, Debug, PartialEq, Eq)]
pub enum Derivation {
    /// Nothing: the name has the type of the specifiers.
    Bare,
    /// A parameter list: the name is a function's.
    Function,
    /// Anything else.
    Other,
}

/// What a declarator says of its name.
#[derive(Clone, Copy, Debug)]
pub struct Declarator {
    /// The leaf of the name, if there is one.
    pub name: Option<u32>,
    pub derivation: Derivation,
    /// The suffix next to the name, if there is one.
    pub suffix: Option<u32>,
}

/// Whether a node is a declarator that may have a name, of smaller number than another node.
fn is_inner(nodes: &[SyntaxNode], outer: u32, node: u32) -> bool
    ensures { result ≡ spec.is_inner (nodes_of nodes.now) outer node }
{
    (is_of(nodes, DECLARATOR, node) || is_of(nodes, EITHER, node)) && node < outer
}

/// The declarator within the parentheses of a declarator.
#[tactic(auto, unfolding(crate::specs::Declarators::inner_of))]
fn inner_of(nodes: &[SyntaxNode], node: u32) -> Option<u32>
    ensures { result ≡ spec.inner_of (nodes_of nodes.now) node }
{
    children_at(nodes, node)
        .iter()
        .copied()
        .find(|child| is_inner(nodes, node, *child))
}

/// The leaf of the name at a declarator's own level.
#[tactic(auto, unfolding(crate::specs::Declarators::name_of))]
fn name_of(tokens: &[Token], nodes: &[SyntaxNode], node: u32) -> Option<u32>
    ensures { result ≡ spec.name_of tokens.now (nodes_of nodes.now) node }
{
    children_at(nodes, node)
        .iter()
        .copied()
        .find(|child| is_name(tokens, nodes, *child))
}

/// Whether a star stands at a declarator's own level.
#[tactic(auto, unfolding(crate::specs::Declarators::has_star))]
fn has_star(tokens: &[Token], nodes: &[SyntaxNode], node: u32) -> bool
    ensures { result ≡ spec.has_star tokens.now (nodes_of nodes.now) node }
{
    children_at(nodes, node)
        .iter()
        .any(|child| is_sign(tokens, nodes, *child, STAR))
}

/// Whether a suffix is a parameter list.
#[tactic(auto, unfolding(crate::specs::Declarators::is_list))]
pub(crate) fn is_list(tokens: &[Token], nodes: &[SyntaxNode], suffix: u32) -> bool
    ensures { result ≡ spec.is_list tokens.now (nodes_of nodes.now) suffix }
{
    match first_child(nodes, suffix) {
        Some(child) => is_sign(tokens, nodes, child, LEFT_PARENTHESIS),
        None => false,
    }
}

/// The derivation at a declarator's own level. A suffix binds more tightly than a star.
#[tactic(auto, unfolding(crate::specs::Declarators::derivation_of))]
fn derivation_of(tokens: &[Token], nodes: &[SyntaxNode], node: u32) -> Derivation
    ensures { result ≡ spec.derivation_of tokens.now (nodes_of nodes.now) node }
{
    match first_part(nodes, node, SUFFIX) {
        Some(suffix) => {
            if is_list(tokens, nodes, suffix) {
                Derivation::Function
            } else {
                Derivation::Other
            }
        }
        None => {
            if has_star(tokens, nodes, node) {
                Derivation::Other
            } else {
                Derivation::Bare
            }
        }
    }
}

/// The derivation next to a name, by that of the inner declarator and that around it.
fn nearest(inner: Derivation, outer: Derivation) -> Derivation
    ensures { result ≡ spec.nearest inner outer }
{
    match inner {
        Derivation::Bare => outer,
        Derivation::Function => Derivation::Function,
        Derivation::Other => Derivation::Other,
    }
}

/// What a declarator says of its name, with the declarator within its parentheses.
pub(crate) fn declarator_at(tokens: &[Token], nodes: &[SyntaxNode], node: u32) -> Declarator
    ensures { result ≡ spec.declarator tokens.now (nodes_of nodes.now) node }
{
    match inner_of(nodes, node) {
        Some(inner) => {
            let inner = declarator_at(tokens, nodes, inner);
            Declarator {
                name: inner.name,
                derivation: nearest(inner.derivation, derivation_of(tokens, nodes, node)),
                suffix: inner.suffix.or(first_part(nodes, node, SUFFIX)),
            }
        }
        None => Declarator {
            name: name_of(tokens, nodes, node),
            derivation: derivation_of(tokens, nodes, node),
            suffix: first_part(nodes, node, SUFFIX),
        },
    }
}

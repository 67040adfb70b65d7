// The nodes above a node.
ghost use Rattle.std.specs.Prelude.{◌≡◌, ◌<◌, length, IfSome};
ghost use Rattle.c_senses.specs.Tree.{first_is, nearest_above};
ghost use Rattle.c_senses.specs.Entities as spec;
ghost use Rattle.tree_reads.specs.Sources.{source_read};
ghost use Rattle.name_places.specs.Levels.{asks, is_definition, is_in_rest, level_seen, no_senses};

use c_grammar::productions::{
    ALIGN, ASSERT, BLOCK, DESIGNATOR, ENUMERATOR, EXTERNAL, FIELD, INIT, REST, STATEMENT, SUFFIX,
    UNARY,
};
use tree_reads::{Syntax, child_of, children_of, has_word, is_a, production_of};

const WORD_SIZEOF: u8 = 24;

const WORD_ALIGNOF: u8 = 35;

/// What a node above another is asked: whether it defines a function, or whether it decides if what is in it initialises a
/// static object.
#[derive(Clone, Copy, Debug, PartialEq, Eq)]
pub(crate) enum Level {
    Definition,
    Boundary,
}

/// Whether a node is the definition of a function (C11 6.9.1).
pub(crate) fn is_definition(syntax: &Syntax, node: u32) -> bool
    ensures { result ≡ is_definition (source_read syntax.now) node }
{
    is_a(syntax, EXTERNAL, node) && child_of(syntax, BLOCK, node).is_some()
}

// Whether a node is the keyword `sizeof` or `_Alignof`.
fn asks(syntax: &Syntax, node: u32) -> bool
    ensures { result ≡ asks (source_read syntax.now) node }
{
    has_word(syntax, WORD_SIZEOF, node) || has_word(syntax, WORD_ALIGNOF, node)
}

// Whether the first of some nodes is one of those keywords.
fn first_asks(syntax: &Syntax, list: &[u32]) -> bool
    ensures { result ≡ first_is (asks (source_read syntax.now)) list.now }
{
    match list.first() {
        Some(first) => asks(syntax, *first),
        None => false,
    }
}

// Whether a node stands in what follows a declared name.
fn is_in_rest(syntax: &Syntax, node: u32) -> bool
    requires { node < length syntax.now.tree.now.nodes.items }
    ensures { result ≡ is_in_rest (source_read syntax.now) node }
{
    match syntax.parent_of(node) {
        Some(parent) => is_a(syntax, REST, parent),
        None => false,
    }
}

/// Whether a node is the initialiser of a declared name (C11 6.7.9).
pub(crate) fn is_object_initialiser(syntax: &Syntax, node: u32) -> bool
    requires { node < length syntax.now.tree.now.nodes.items }
    ensures { result ≡ spec.is_object_initialiser (source_read syntax.now) no_senses node }
{
    is_a(syntax, INIT, node) && is_in_rest(syntax, node)
}

// Whether a node decides if what is in it initialises a static object.
fn is_boundary(syntax: &Syntax, node: u32) -> bool
    requires { node < length syntax.now.tree.now.nodes.items }
    ensures { result ≡ spec.is_boundary (source_read syntax.now) no_senses node }
{
    let production = production_of(syntax, node);
    (production == UNARY && first_asks(syntax, children_of(syntax, node)))
        || production == SUFFIX
        || production == ALIGN
        || production == ENUMERATOR
        || production == FIELD
        || production == DESIGNATOR
        || production == STATEMENT
        || production == ASSERT
        || (production == INIT && is_in_rest(syntax, node))
}

// Whether a node passes a test.
fn passes(syntax: &Syntax, level: Level, node: u32) -> bool
    requires { node < length syntax.now.tree.now.nodes.items }
    ensures { result ≡ level_seen (source_read syntax.now) level node }
{
    match level {
        Level::Definition => is_definition(syntax, node),
        Level::Boundary => is_boundary(syntax, node),
    }
}

/// The nearest node above that passes a test.
pub(crate) fn nearest(syntax: &Syntax, level: Level, node: u32) -> Option<u32>
    requires { node < length syntax.now.tree.now.nodes.items }
    ensures nearest { let s = source_read syntax.now in result ≡ nearest_above s (level_seen s level) node }
    ensures within { IfSome result (λ p. p < length syntax.now.tree.now.nodes.items) }
{
    let mut next = syntax.parent_of(node);
    for _step in 0..syntax.tree.nodes.len() {
        let Some(parent) = next else {
            return None;
        };
        if passes(syntax, level, parent) {
            return Some(parent);
        }
        next = syntax.parent_of(parent);
    }
    None
}

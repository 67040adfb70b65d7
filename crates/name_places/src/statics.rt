// What stands in the initialiser of an object that lasts for the whole run (C11 6.2.4, 6.7.9p4).
ghost use Rattle.std.specs.Prelude.{◌≡◌, ◌<◌, ◌||◌, ℕ, true, length, All};
ghost use Rattle.core_tree.specs.declared.node.Unit.{Unit as UnitSpec};
ghost use Rattle.c_senses.specs.Sense.{Sense, sense_in};
ghost use Rattle.c_senses.specs.Tree.{children_at, last_where};
ghost use Rattle.c_senses.specs.Entities as spec;
ghost use Rattle.c_results.specs.Standing.{senses_made};
ghost use Rattle.tree_reads.specs.Order.{ascends};
ghost use Rattle.tree_reads.specs.Sources.{source_read};
ghost use Rattle.name_places.specs.Named.{IsNamedIn};
ghost use Rattle.name_places.specs.Statics.{is_declarator_before};

use crate::levels::{Level, is_object_initialiser, nearest};
use crate::names::declared_name;
use c_entities::{has_storage, is_at_file};
use c_grammar::productions::DECLARATOR;
use c_results::Results;
use tree_reads::{Syntax, child_of, children_of, first_from, is_a};

const WORD_EXTERN: u8 = 11;

const WORD_STATIC: u8 = 25;

// Whether a node is a declarator that stands before another node.
fn is_before(syntax: &Syntax, initialiser: u32, node: u32) -> bool
    ensures { result ≡ is_declarator_before (source_read syntax.now) initialiser node }
{
    if node >= initialiser {
        return false;
    }
    is_a(syntax, DECLARATOR, node)
}

// The last declarator among some nodes that stands before another node, looked for from the end.
fn declarator_before(syntax: &Syntax, initialiser: u32, list: &[u32]) -> Option<u32>
    ensures { result ≡ last_where (is_declarator_before (source_read syntax.now) initialiser) list.now }
{
    let mut left = list.len();
    while left > 0 {
        left -= 1;
        if is_before(syntax, initialiser, list[left]) {
            return Some(list[left]);
        }
    }
    None
}

// The same for an ascending list: none of it stands before the node from the node's own place on.
fn declarator_in_order(syntax: &Syntax, initialiser: u32, list: &[u32]) -> Option<u32>
    requires { ascends list.now ≡ true }
    ensures { result ≡ last_where (is_declarator_before (source_read syntax.now) initialiser) list.now }
{
    declarator_before(syntax, initialiser, &list[..first_from(list, initialiser)])
}

// The last declarator among the children of a node that stands before another node.
fn declarator_among(syntax: &Syntax, initialiser: u32, parent: u32) -> Option<u32>
    ensures { let s = source_read syntax.now in
        result ≡ last_where (is_declarator_before s initialiser) (children_at s parent) }
{
    let list = children_of(syntax, parent);
    if syntax.is_ordered() {
        declarator_in_order(syntax, initialiser, list)
    } else {
        declarator_before(syntax, initialiser, list)
    }
}

/// The declarator whose initialiser a node is (C11 6.7.9), by the declarators that stand before it, else that of the declaration
/// whose rest it is in.
pub fn initialised_by(syntax: &Syntax, initialiser: u32) -> Option<u32>
    requires { initialiser < length syntax.now.tree.now.nodes.items }
    ensures { (sense : ℕ → Sense) → result ≡ spec.initialised_by (source_read syntax.now) sense initialiser }
{
    let parent = syntax.parent_of(initialiser)?;
    match declarator_among(syntax, initialiser, parent) {
        Some(declarator) => Some(declarator),
        None => {
            let declaration = syntax.parent_of(parent)?;
            child_of(syntax, DECLARATOR, declaration)
        }
    }
}

// Whether one of three is so.
fn any_of(first: bool, second: bool, third: bool) -> bool
    ensures { result ≡ (first || (second || third)) }
{
    first || second || third
}

/// Whether a declared object lasts for the whole run (C11 6.2.4p3): it is declared at file scope, or with `static` or `extern`.
pub fn is_static_object(syntax: &Syntax, results: &Results, leaf: u32) -> bool
    requires { leaf < length syntax.now.tree.now.nodes.items }
    ensures { (u : UnitSpec) →
        result ≡ spec.is_static_object (source_read syntax.now) (sense_in (senses_made u results.now)) leaf }
{
    let at_file = is_at_file(syntax, leaf);
    let is_static = has_storage(syntax, results, WORD_STATIC, leaf);
    let is_extern = has_storage(syntax, results, WORD_EXTERN, leaf);
    any_of(at_file, is_static, is_extern)
}

// Whether the object that a node initialises lasts for the whole run.
fn initialises_static(syntax: &Syntax, results: &Results, initialiser: u32) -> bool
    requires names { All (IsNamedIn (length syntax.now.tree.now.nodes.items)) results.now }
    requires initialiser { initialiser < length syntax.now.tree.now.nodes.items }
    ensures { (u : UnitSpec) →
        result ≡ spec.initialises_static (source_read syntax.now) (sense_in (senses_made u results.now)) initialiser }
{
    let Some(declarator) = initialised_by(syntax, initialiser) else {
        return false;
    };
    match declared_name(results, declarator) {
        Some(leaf) => is_static_object(syntax, results, leaf),
        None => false,
    }
}

/// Whether a node stands in the initialiser of an object that lasts for the whole run, and in no operand that isn't evaluated
/// (C11 6.6, 6.7.9p4): there no automatic object may be named and no function called. It takes as long as the nesting around
/// the node is deep, and the logarithm of the length of the list of declarators in which that initialiser stands.
pub fn is_in_static(syntax: &Syntax, results: &Results, node: u32) -> bool
    requires names { All (IsNamedIn (length syntax.now.tree.now.nodes.items)) results.now }
    requires node { node < length syntax.now.tree.now.nodes.items }
    ensures { (u : UnitSpec) →
        result ≡ spec.is_in_static (source_read syntax.now) (sense_in (senses_made u results.now)) node }
{
    match nearest(syntax, Level::Boundary, node) {
        Some(boundary) => is_object_initialiser(syntax, boundary)
            && initialises_static(syntax, results, boundary),
        None => false,
    }
}

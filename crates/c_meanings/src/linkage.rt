// The linkage and the entities of names.
ghost use Rattle.std.specs.Prelude.{◌≡◌, ◌<◌, ℕ, List, length, Some, true};
ghost use Rattle.core_tree.specs.declared.node.Unit.{Unit as UnitSpec};
ghost use Rattle.c_senses.specs.Sense.{sense_in};
ghost use Rattle.c_senses.specs.Entities as spec;
ghost use Rattle.c_results.specs.Standing.{senses_made};
ghost use Rattle.tree_reads.specs.Sources.{source_in};
ghost use Rattle.name_chains.specs.Links.{listed, IsLinkOf};
ghost use Rattle.c_meanings.specs.Known.{AreChained, AreNamed};
ghost use Rattle.c_meanings.specs.Internal.{internal_or, first_internal};
ghost use Rattle.c_meanings.specs.Statics.{IsStaticSeen};

use crate::names::{Names, declares_function, is_linked, symbol_link};
use crate::statics::{StaticSeen, is_static_at_file, nothing_seen, sees_static};
use crate::storage::WORD_EXTERN;
use c_entities::{has_storage, is_without_storage};
use c_results::Results;
use core_tree::node::Linkage;
use tree_reads::Syntax;

/// Whether a declaration takes over the linkage of those that are seen there (C11 6.2.2p4, p5).
pub(crate) fn takes_over(names: &Names, syntax: &Syntax, results: &Results, leaf: u32) -> bool
    requires names { AreChained syntax.now names.now }
    requires leaf { leaf < length syntax.now.tree.now.nodes.items }
    ensures { (u : UnitSpec) (uses : List (ℕ × ℕ)) →
        result ≡ spec.takes_over (source_in syntax.now uses) (sense_in (senses_made u results.now)) leaf }
{
    has_storage(syntax, results, WORD_EXTERN, leaf)
        || (declares_function(names, syntax, leaf) && is_without_storage(syntax, results, leaf))
}

/// Whether a leaf declares a name with internal linkage (C11 6.2.2p3 to p5), with what an earlier question found out of the declarations
/// that are seen there. The contract says that the answer is right and that what was found out stays so, and nothing of how often a
/// declaration is looked at.
pub fn is_internal_after(
    names: &Names,
    syntax: &Syntax,
    results: &Results,
    seen: &mut StaticSeen,
    leaf: u32,
) -> bool
    requires names { AreNamed syntax.now results.now names.now }
    requires seen { IsStaticSeen syntax.now results.now names.now seen.old }
    requires leaf { leaf < length syntax.now.tree.now.nodes.items }
    ensures seen { IsStaticSeen syntax.now results.now names.now seen.new }
    ensures internal { (u : UnitSpec) (uses : List (ℕ × ℕ)) →
        result ≡ spec.is_internal (source_in syntax.now uses) (sense_in (senses_made u results.now)) leaf }
{
    if !is_linked(names, syntax, leaf) {
        return false;
    }
    if is_static_at_file(syntax, results, leaf) {
        return true;
    }
    if !takes_over(names, syntax, results, leaf) {
        return false;
    }
    sees_static(names, syntax, results, seen, leaf)
}

/// Whether a leaf declares a name with internal linkage (C11 6.2.2p3 to p5).
pub fn is_internal(names: &Names, syntax: &Syntax, results: &Results, leaf: u32) -> bool
    requires names { AreNamed syntax.now results.now names.now }
    requires leaf { leaf < length syntax.now.tree.now.nodes.items }
    ensures { (u : UnitSpec) (uses : List (ℕ × ℕ)) →
        result ≡ spec.is_internal (source_in syntax.now uses) (sense_in (senses_made u results.now)) leaf }
{
    let mut seen = nothing_seen();
    is_internal_after(names, syntax, results, &mut seen, leaf)
}

/// The linkage of the name that a leaf declares (C11 6.2.2).
pub fn linkage_of(names: &Names, syntax: &Syntax, results: &Results, leaf: u32) -> Linkage
    requires names { AreNamed syntax.now results.now names.now }
    requires leaf { leaf < length syntax.now.tree.now.nodes.items }
    ensures { (u : UnitSpec) (uses : List (ℕ × ℕ)) →
        result ≡ spec.linkage_of (source_in syntax.now uses) (sense_in (senses_made u results.now)) leaf }
{
    if is_internal(names, syntax, results, leaf) {
        Linkage::Internal
    } else if is_linked(names, syntax, leaf) {
        Linkage::External
    } else {
        Linkage::Local
    }
}

// The front of the list of a symbol's declarations in which the first one with internal linkage stands, or else a leaf.
#[derive(Clone, Copy)]
struct Front {
    last: Option<u32>,
    leaf: u32,
}

// Whether a leaf declares a name `static` at file scope, with linkage.
fn is_static(names: &Names, syntax: &Syntax, results: &Results, leaf: u32) -> bool
    requires names { AreNamed syntax.now results.now names.now }
    requires leaf { leaf < length syntax.now.tree.now.nodes.items }
    ensures { (u : UnitSpec) (uses : List (ℕ × ℕ)) →
        result ≡ true → spec.is_internal (source_in syntax.now uses) (sense_in (senses_made u results.now)) leaf ≡ true }
{
    is_linked(names, syntax, leaf) && is_static_at_file(syntax, results, leaf)
}

// The list before the first declaration that is `static` at file scope of the list that ends at a place of its symbol's, and the leaf of
// that declaration; the whole list and the other leaf where none is.
fn front_of(names: &Names, syntax: &Syntax, results: &Results, place: u32, leaf: u32) -> Front
    requires names { AreNamed syntax.now results.now names.now }
    requires place { place < length names.now.symbols.items }
    ensures last { IsLinkOf names.now.symbols.items result.last }
    ensures first { (u : UnitSpec) (uses : List (ℕ × ℕ)) →
        let s = source_in syntax.now uses in
        let sense = sense_in (senses_made u results.now) in
        first_internal s sense result.leaf (listed names.now.symbols.items result.last)
        ≡ first_internal s sense leaf (listed names.now.symbols.items (Some place)) }
{
    let mut front = Front {
        last: Some(place),
        leaf,
    };
    let mut at = Some(place);
    while let Some(here) = at {
        let link = symbol_link(names, here);
        if is_static(names, syntax, results, link.declared.node) {
            front = Front {
                last: link.before,
                leaf: link.declared.node,
            };
        }
        at = link.before;
    }
    front
}

// The leaf of a declaration with internal linkage, or else the other leaf.
fn internal_or(
    names: &Names,
    syntax: &Syntax,
    results: &Results,
    seen: &mut StaticSeen,
    leaf: u32,
    other: u32,
) -> u32
    requires names { AreNamed syntax.now results.now names.now }
    requires seen { IsStaticSeen syntax.now results.now names.now seen.old }
    requires leaf { leaf < length syntax.now.tree.now.nodes.items }
    ensures seen { IsStaticSeen syntax.now results.now names.now seen.new }
    ensures leaf { (u : UnitSpec) (uses : List (ℕ × ℕ)) →
        result ≡ internal_or (source_in syntax.now uses) (sense_in (senses_made u results.now)) leaf other }
{
    if is_internal_after(names, syntax, results, seen, leaf) {
        leaf
    } else {
        other
    }
}

// The first declaration with internal linkage of a list of a symbol's declarations, or else a leaf.
fn first_internal(names: &Names, syntax: &Syntax, results: &Results, front: Front) -> u32
    requires names { AreNamed syntax.now results.now names.now }
    requires last { IsLinkOf names.now.symbols.items front.last }
    ensures { (u : UnitSpec) (uses : List (ℕ × ℕ)) →
        result ≡ first_internal (source_in syntax.now uses) (sense_in (senses_made u results.now)) front.leaf
        (listed names.now.symbols.items front.last) }
{
    let mut seen = nothing_seen();
    let mut first = front.leaf;
    let mut at = front.last;
    while let Some(here) = at {
        let link = symbol_link(names, here);
        first = internal_or(names, syntax, results, &mut seen, link.declared.node, first);
        at = link.before;
    }
    first
}

/// The entity of the object or function that a leaf declares, by a leaf: the first declaration of an internal name in the unit, and of
/// any other name its own (C11 6.2.2p2).
pub fn entity_of(names: &Names, syntax: &Syntax, results: &Results, leaf: u32) -> u32
    requires names { AreNamed syntax.now results.now names.now }
    requires leaf { leaf < length syntax.now.tree.now.nodes.items }
    ensures { (u : UnitSpec) (uses : List (ℕ × ℕ)) →
        result ≡ spec.entity_of (source_in syntax.now uses) (sense_in (senses_made u results.now)) leaf }
{
    if !is_internal(names, syntax, results, leaf) {
        return leaf;
    }
    match names.chains.positions.get(leaf) {
        Some(place) => {
            let front = front_of(names, syntax, results, place, leaf);
            first_internal(names, syntax, results, front)
        }
        None => leaf,
    }
}

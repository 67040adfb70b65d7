// The functions that own objects without linkage (C11 6.2.2p6).
ghost use Rattle.std.specs.Prelude.{◌≡◌, ◌<◌, ℕ, List, All, length};
ghost use Rattle.std.specs.Option.{option_map};
ghost use Rattle.core_tree.specs.declared.node.Unit.{Unit as UnitSpec};
ghost use Rattle.c_senses.specs.Sense.{sense_in};
ghost use Rattle.c_senses.specs.Entities as spec;
ghost use Rattle.c_senses.specs.Right as right;
ghost use Rattle.c_results.specs.Standing.{senses_made};
ghost use Rattle.tree_reads.specs.Sources.{source_in};
ghost use Rattle.name_places.specs.Named.{IsNamedIn};
ghost use Rattle.c_meanings.specs.Known.{AreNamed};

use c_meanings::{Names, entity_of};
use c_results::Results;
use core_tree::node::Linkage;
use name_places::function_around;
use tree_reads::Syntax;

/// The function in whose definition a node stands, by the leaf of its entity; None outside of functions.
pub(crate) fn function_entity(
    names: &Names,
    syntax: &Syntax,
    results: &Results,
    node: u32,
) -> Option<u32>
    requires names { AreNamed syntax.now results.now names.now }
    requires named { All (IsNamedIn (length syntax.now.tree.now.nodes.items)) results.now }
    requires node { node < length syntax.now.tree.now.nodes.items }
    ensures { (u : UnitSpec) (uses : List (ℕ × ℕ)) →
        let s = source_in syntax.now uses in
        let sense = sense_in (senses_made u results.now) in
        result ≡ option_map (spec.entity_of s sense) (spec.function_around s sense node) }
{
    match function_around(syntax, results, node) {
        Some(leaf) => Some(entity_of(names, syntax, results, leaf)),
        None => None,
    }
}

/// The function that owns what a leaf declares, by the leaf of its entity: of a name without linkage the function around it (C11
/// 6.2.2p6); None for any other, and outside of functions. `linkage` is the
/// name's.
pub(crate) fn owner_at(
    names: &Names,
    syntax: &Syntax,
    results: &Results,
    linkage: Linkage,
    leaf: u32,
) -> Option<u32>
    requires names { AreNamed syntax.now results.now names.now }
    requires named { All (IsNamedIn (length syntax.now.tree.now.nodes.items)) results.now }
    requires linkage { (u : UnitSpec) (uses : List (ℕ × ℕ)) →
        linkage ≡ spec.linkage_of (source_in syntax.now uses) (sense_in (senses_made u results.now)) leaf }
    requires leaf { leaf < length syntax.now.tree.now.nodes.items }
    ensures { (u : UnitSpec) (uses : List (ℕ × ℕ)) →
        result ≡ right.owner_at (source_in syntax.now uses) (senses_made u results.now) leaf }
{
    match linkage {
        Linkage::Local => function_entity(names, syntax, results, leaf),
        Linkage::External | Linkage::Internal => None,
    }
}

// The enumerators that an expression itself declares.
ghost use Rattle.std.specs.Prelude.{◌≡◌, ◌++◌, ◌&&◌, ℕ, List, Some, IfOk, OnOk, IsOkUnless};
ghost use Rattle.c_grammar.specs.Productions.{p_enumerator};
ghost use Rattle.core_tree.specs.declared.node.Unit.{Unit as UnitSpec};
ghost use Rattle.c_results.specs.Parts.{number_in};
ghost use Rattle.c_results.specs.Standing.{senses_made};
ghost use Rattle.c_senses.specs.Sense.{sense_in};
ghost use Rattle.c_senses.specs.Tree as tree;
ghost use Rattle.tree_reads.specs.Sources.{source_read};
ghost use Rattle.c_check.specs.declared.known_tags.known.Meaning.{Meaning as MeaningSpec};
ghost use Rattle.c_check.specs.known_tags.Given.{AreGiven};
ghost use Rattle.c_check.specs.known_tags.Own.{AreUnder};
ghost use Rattle.c_check.specs.known_tags.Own as own;
ghost use Rattle.c_check.specs.known_tags.Values as spec;
ghost use Rattle.c_check.specs.known_tags.Values.{new_pair, own_values, pair_of, pairs_if};

use crate::known_tags::given::Given;
use crate::known_tags::known::Meaning;
use crate::known_tags::own::flag_at;
use c_grammar::productions::ENUMERATOR;
use c_results::{Results, value_at};
use core_nodes::CheckFault;
use std::alloc::Global;
use tree_reads::{Syntax, children_of, is_a};

// Whether a node is an enumerator, and flagged.
fn is_enumerator(syntax: &Syntax, flags: &[bool], node: u32) -> bool
    ensures { result ≡ (own.flag_at flags.now node && tree.is_a (source_read syntax.now) p_enumerator node) }
{
    flag_at(flags, node) && is_a(syntax, ENUMERATOR, node)
}

// The name of an enumerator, the first of its children, where nothing is known of it.
fn new_leaf(given: &Given, children: &[u32]) -> Option<u32>
    ensures { (list : List (ℕ × MeaningSpec)) → AreGiven given.now list → result ≡ spec.new_leaf list children.now }
{
    let Some(leaf) = children.first() else {
        return None;
    };
    if given.seen.get(*leaf).is_some() {
        return None;
    }
    Some(*leaf)
}

// Puts a value behind some pairs.
fn push_value(pairs: &mut Vec<(u32, Meaning)>, leaf: u32, value: i128) -> Result<(), CheckFault>
    ensures put { OnOk result (pairs.new.items ≡ pairs.old.items ++ pair_of (Some leaf) (Some value)) }
    ensures memory { IsOkUnless result CheckFault.OutOfMemory }
{
    pairs.push((leaf, Meaning::Value(value)))?;
    Ok(())
}

// Puts an enumerator's value behind some pairs.
fn put_value(
    pairs: &mut Vec<(u32, Meaning)>,
    syntax: &Syntax,
    results: &Results,
    given: &Given,
    is_own: bool,
    node: u32,
) -> Result<(), CheckFault>
    ensures put { OnOk result ((u : UnitSpec) (list : List (ℕ × MeaningSpec)) →
        AreGiven given.now list →
        pairs.new.items ≡ pairs.old.items ++ pairs_if is_own
        (new_pair list (tree.children_at (source_read syntax.now) node) (number_in (sense_in (senses_made u results.now) node)))) }
    ensures memory { IsOkUnless result CheckFault.OutOfMemory }
{
    if !is_own {
        return Ok(());
    }
    let Some(leaf) = new_leaf(given, children_of(syntax, node)) else {
        return Ok(());
    };
    match value_at(results, node) {
        Some(value) => push_value(pairs, leaf, value),
        None => Ok(()),
    }
}

/// The enumerators that an expression itself declares, by what was made for the nodes before its own: the node of the name of each with
/// its value, in order, where nothing is known of that node. Only memory may want.
pub fn own_values(
    alloc: Global,
    syntax: &Syntax,
    results: &Results,
    given: &Given,
    flags: &[bool],
    top: u32,
) -> Result<Vec<(u32, Meaning)>, CheckFault>
    ensures values { IfOk result (λ pairs. (u : UnitSpec) (list : List (ℕ × MeaningSpec)) →
        AreGiven given.now list →
        AreUnder (source_read syntax.now) top flags.now →
        pairs.items ≡ own_values (source_read syntax.now) (sense_in (senses_made u results.now)) top list top) }
    ensures memory { IsOkUnless result CheckFault.OutOfMemory }
{
    let mut pairs = Vec::new(alloc);
    for node in 0..top {
        let own = is_enumerator(syntax, flags, node);
        put_value(&mut pairs, syntax, results, given, own, node)?;
    }
    Ok(pairs)
}

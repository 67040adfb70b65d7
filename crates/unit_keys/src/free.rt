// The name by which a specifier without a tag has its key.
#![tactic(auto)]

ghost use Rattle.std.specs.Prelude.{◌≡◌, ◌||◌, ◌&&◌, ◌<◌, ◌+◌, ◌^◌, Bool, ℕ, List, map, length, option_map, IfOk, OnOk};
ghost use Rattle.core_tree.specs.declared.node.Unit.{Unit as UnitSpec};
ghost use Rattle.c_senses.specs.Tree.{spelling_at};
ghost use Rattle.c_senses.specs.Keys as keys;
ghost use Rattle.c_senses.specs.Sense.{Sense, sense_in};
ghost use Rattle.c_results.specs.Standing.{senses_made};
ghost use Rattle.tree_reads.specs.Sources.{source_in};
ghost use Rattle.tree_reads.specs.node_roles.Roles.{AreRoles};
ghost use Rattle.unit_keys.specs.Words as words;
ghost use Rattle.unit_keys.specs.Free.{first_untaken, AreFree, TakenBelow};

use crate::names::leaves_with;
use crate::words::{Words, add_word, has_word};
use c_grammar::productions::STRUCT;
use c_results::Results;
use std::alloc::{AllocError, Global};
use std::collections::BTreeMap;
use tree_reads::leaf_maps::LeafMap;
use tree_reads::node_roles::{Role, is_specifier_at};
use tree_reads::{Syntax, Test, children_of, first_where, is_a, spelling_of};

// Whether a node is the specifier of a structure or union without a tag.
fn is_untagged(syntax: &Syntax, node: u32) -> bool
    ensures { (uses : List (ℕ × ℕ)) (sense : ℕ → Sense) → result ≡ keys.is_untagged (source_in syntax.now uses) sense node }
{
    is_a(syntax, STRUCT, node)
        && first_where(syntax, Test::Name, children_of(syntax, node)).is_none()
}

// The first leaf whose name isn't taken.
fn first_free(syntax: &Syntax, taken: &Words, leaves: &[u32]) -> Option<u32>
    ensures { (uses : List (ℕ × ℕ)) →
        let s = source_in syntax.now uses in
        option_map (spelling_at s) result ≡ first_untaken (words.has_word taken.now) (map (spelling_at s) leaves.now) }
{
    for leaf in leaves {
        if !has_word(taken, spelling_of(syntax, *leaf)) {
            return Some(*leaf);
        }
    }
    None
}

// Takes the names of some leaves.
fn take_names(
    alloc: Global,
    syntax: &Syntax,
    taken: &mut Words,
    leaves: &[u32],
) -> Result<(), AllocError>
    ensures { OnOk result ((uses : List (ℕ × ℕ)) (sense : ℕ → Sense) (name : List ℕ) →
        let s = source_in syntax.now uses in
        words.has_word taken.new name ≡ (words.has_word taken.old name || keys.has_bytes s sense name (map (spelling_at s) leaves.now))) }
{
    for leaf in leaves {
        add_word(alloc, taken, spelling_of(syntax, *leaf), *leaf)?;
    }
    Ok(())
}

// Takes the names that are declared with a node, if it is a specifier without a tag.
fn take_untagged(
    alloc: Global,
    syntax: &Syntax,
    taken: &mut Words,
    node: u32,
    leaves: &[u32],
) -> Result<(), AllocError>
    ensures { OnOk result ((uses : List (ℕ × ℕ)) (sense : ℕ → Sense) (name : List ℕ) →
        let s = source_in syntax.now uses in
        words.has_word taken.new name
        ≡ (words.has_word taken.old name
        || (keys.is_untagged s sense node && keys.has_bytes s sense name (map (spelling_at s) leaves.now)))) }
{
    if !is_untagged(syntax, node) {
        return Ok(());
    }
    take_names(alloc, syntax, taken, leaves)?;
    Ok(())
}

// Keeps the first free name that is declared with one more node, if that is a specifier, and takes its names if it has no tag.
fn free_more(
    alloc: Global,
    syntax: &Syntax,
    roles: &[Role],
    results: &Results,
    taken: &mut Words,
    free: &mut LeafMap,
    node: u32,
) -> Result<(), AllocError>
    requires { node < length syntax.now.tree.now.nodes.items }
    ensures taken { OnOk result ((u : UnitSpec) (uses : List (ℕ × ℕ)) →
        AreRoles (source_in syntax.now uses) roles.now →
        TakenBelow (source_in syntax.now uses) (sense_in (senses_made u results.now)) (words.has_word taken.old) node →
        TakenBelow (source_in syntax.now uses) (sense_in (senses_made u results.now)) (words.has_word taken.new) (node + 1)) }
    ensures free { OnOk result ((u : UnitSpec) (uses : List (ℕ × ℕ)) →
        AreRoles (source_in syntax.now uses) roles.now →
        TakenBelow (source_in syntax.now uses) (sense_in (senses_made u results.now)) (words.has_word taken.old) node →
        AreFree (source_in syntax.now uses) (sense_in (senses_made u results.now)) free.old node →
        AreFree (source_in syntax.now uses) (sense_in (senses_made u results.now)) free.new (node + 1)) }
{
    if !is_specifier_at(roles, node) {
        return Ok(());
    }
    let leaves = leaves_with(alloc, syntax, results, node)?;
    let first = first_free(syntax, taken, leaves.as_slice());
    take_untagged(alloc, syntax, taken, node, leaves.as_slice())?;
    match first {
        Some(leaf) => {
            free.add(node, leaf)?;
            Ok(())
        }
        None => Ok(()),
    }
}

/// For each specifier the leaf of the first name that is declared with it at file scope and with no specifier before that has no tag. The
/// specifiers are known by what each node is.
pub fn free_names(
    alloc: Global,
    syntax: &Syntax,
    roles: &[Role],
    results: &Results,
) -> Result<LeafMap, AllocError>
    requires { length syntax.now.tree.now.nodes.items < 2 ^ 32 }
    ensures { IfOk result (λ free. (u : UnitSpec) (uses : List (ℕ × ℕ)) →
        AreRoles (source_in syntax.now uses) roles.now →
        AreFree (source_in syntax.now uses) (sense_in (senses_made u results.now)) free (length syntax.now.tree.now.nodes.items)) }
{
    let mut taken = BTreeMap::new(alloc);
    let mut free = LeafMap::new(alloc);
    for node in 0..syntax.tree.nodes.len() as u32 {
        free_more(alloc, syntax, roles, results, &mut taken, &mut free, node)?;
    }
    Ok(free)
}

// The key of each specifier.
#![tactic(auto)]

ghost use Rattle.std.specs.Prelude.{◌≡◌, ◌<◌, ◌+◌, ◌^◌, true, ℕ, List, length, IfOk, OnOk};
ghost use Rattle.core_tree.specs.declared.node.Unit.{Unit as UnitSpec};
ghost use Rattle.c_senses.specs.Keys as keys;
ghost use Rattle.c_senses.specs.Sense.{sense_in};
ghost use Rattle.c_results.specs.Standing.{senses_made};
ghost use Rattle.parsed_tree_laws.specs.sense_laws.Senses.{ChildrenFirst};
ghost use Rattle.tree_reads.specs.Sources.{source_in, source_read};
ghost use Rattle.unit_keys.specs.Placed.{ArePositions};
ghost use Rattle.unit_keys.specs.Specifiers as specifiers;
ghost use Rattle.unit_keys.specs.given_keys.Kept.{AreKeys};
ghost use Rattle.unit_keys.specs.given_keys.Keyed.{IsKnown, inherited, key_around};

use crate::given_keys::kept::KeptKeys;
use crate::is_specifier;
use crate::tag_keys::{
    has_members, member_key, named_key, position_in, structure_around, tagged_key,
};
use c_results::Results;
use pta_base::{OutOfMemory, Text};
use std::alloc::Global;
use tree_reads::leaf_maps::LeafMap;
use tree_reads::node_roles::{Role, is_specifier_at};
use tree_reads::{Syntax, Test, children_of, first_where};

/// What is known before the keys: what each node is; whether it stands in a block or a parameter list, the last node first; the free name
/// of each specifier; and the position of each declaration of members among the parts of the list that has it.
#[derive(Clone, Copy)]
pub(in crate::given_keys) struct Known<'a> {
    pub(in crate::given_keys) roles: &'a [Role],
    pub(in crate::given_keys) inner: &'a [bool],
    pub(in crate::given_keys) free: &'a LeafMap,
    pub(in crate::given_keys) positions: &'a LeafMap,
}

// The key that a node has as the specifier of members, by the keys of the specifiers behind it. Members stand in the list of a specifier;
// if they didn't, that would count as want of memory.
fn inherited_key(
    alloc: Global,
    syntax: &Syntax,
    results: &Results,
    positions: &LeafMap,
    behind: &KeptKeys,
    node: u32,
) -> Result<Option<Text>, OutOfMemory>
    requires first { ChildrenFirst (source_read syntax.now) }
    requires node { node < length syntax.now.tree.now.nodes.items }
    ensures { IfOk result (λ key. (u : UnitSpec) (uses : List (ℕ × ℕ)) →
        let s = source_in syntax.now uses in
        let sense = sense_in (senses_made u results.now) in
        AreKeys s sense behind.now (node + 1) →
        ArePositions s sense positions.now (length s.nodes) → key ≡ inherited s sense node (key_around s sense node)) }
{
    if !has_members(syntax, results, node) {
        return Ok(None);
    }
    let Some(structure) = structure_around(syntax, node) else {
        return Ok(None);
    };
    if !is_specifier(syntax, structure) {
        return Err(OutOfMemory);
    }
    match behind.get(structure) {
        Some(around) => {
            let position = position_in(syntax, positions, node);
            let key = member_key(alloc, syntax, node, around.as_str(), position)?;
            Ok(Some(key))
        }
        None => Ok(None),
    }
}

// The key of a specifier by what is known, and the keys of those behind it.
fn key_of(
    alloc: Global,
    syntax: &Syntax,
    results: &Results,
    known: Known<'_>,
    behind: &KeptKeys,
    node: u32,
) -> Result<Option<Text>, OutOfMemory>
    requires first { ChildrenFirst (source_read syntax.now) }
    requires node { node < length syntax.now.tree.now.nodes.items }
    requires long { length known.inner.now ≡ length syntax.now.tree.now.nodes.items }
    ensures { IfOk result (λ key. (u : UnitSpec) (uses : List (ℕ × ℕ)) →
        let s = source_in syntax.now uses in
        let sense = sense_in (senses_made u results.now) in
        specifiers.is_specifier s node ≡ true →
        AreKeys s sense behind.now (node + 1) → IsKnown s sense known.entry → key ≡ keys.key_of s sense node) }
{
    if known.inner[syntax.tree.nodes.len() - 1 - node as usize] {
        return Ok(None);
    }
    if let Some(leaf) = first_where(syntax, Test::Name, children_of(syntax, node)) {
        let key = tagged_key(alloc, syntax, node, leaf)?;
        return Ok(Some(key));
    }
    if let Some(leaf) = known.free.get(node) {
        let key = named_key(alloc, syntax, node, leaf)?;
        return Ok(Some(key));
    }
    let inherited = inherited_key(alloc, syntax, results, known.positions, behind, node)?;
    Ok(inherited)
}

// Keeps the key of one more node, if that is a specifier, by the keys of those behind it.
fn keep_key(
    alloc: Global,
    syntax: &Syntax,
    results: &Results,
    known: Known<'_>,
    keys: &mut KeptKeys,
    node: u32,
) -> Result<(), OutOfMemory>
    requires first { ChildrenFirst (source_read syntax.now) }
    requires node { node < length syntax.now.tree.now.nodes.items }
    requires long { length known.inner.now ≡ length syntax.now.tree.now.nodes.items }
    ensures { OnOk result ((u : UnitSpec) (uses : List (ℕ × ℕ)) →
        let s = source_in syntax.now uses in
        let sense = sense_in (senses_made u results.now) in
        IsKnown s sense known.entry → AreKeys s sense keys.old (node + 1) → AreKeys s sense keys.new node) }
{
    if !is_specifier_at(known.roles, node) {
        return Ok(());
    }
    let own = key_of(alloc, syntax, results, known, keys, node)?;
    match own {
        Some(key) => {
            keys.put(node, key)?;
            Ok(())
        }
        None => Ok(()),
    }
}

/// The key of each specifier, in time linear in the nodes and the text of keys but for ordered look-ups.
pub(in crate::given_keys) fn keys_of_specifiers(
    alloc: Global,
    syntax: &Syntax,
    results: &Results,
    known: Known<'_>,
) -> Result<KeptKeys, OutOfMemory>
    requires count { length syntax.now.tree.now.nodes.items < 2 ^ 32 }
    requires first { ChildrenFirst (source_read syntax.now) }
    requires long { length known.inner.now ≡ length syntax.now.tree.now.nodes.items }
    ensures { IfOk result (λ list. (u : UnitSpec) (uses : List (ℕ × ℕ)) →
        let s = source_in syntax.now uses in
        let sense = sense_in (senses_made u results.now) in
        IsKnown s sense known.entry → AreKeys s sense list 0) }
{
    let mut list = KeptKeys::new(alloc);
    let mut left = syntax.tree.nodes.len() as u32;
    while left > 0 {
        left -= 1;
        keep_key(alloc, syntax, results, known, &mut list, left)?;
    }
    Ok(list)
}

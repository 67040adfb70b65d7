// The positions of members among the parts of their list.
#![tactic(auto)]

ghost use Rattle.std.specs.Prelude.{◌≡◌, ◌<◌, ◌^◌, ◌+◌, ◌==◌, ◌&&◌, true, false, None, Some, if◌then◌else◌, ℕ, List, length, IfOk, OnOk};
ghost use Rattle.core_tree.specs.declared.node.Unit.{Unit as UnitSpec};
ghost use Rattle.c_grammar.specs.Productions.{p_member};
ghost use Rattle.c_grammar.specs.Terminals.{contains};
ghost use Rattle.c_senses.specs.Tree as tree;
ghost use Rattle.c_senses.specs.Tree.{Source};
ghost use Rattle.c_senses.specs.Keys as keys;
ghost use Rattle.c_senses.specs.World.{or_else};
ghost use Rattle.c_senses.specs.Sense.{Sense, sense_in};
ghost use Rattle.c_results.specs.Standing.{senses_made};
ghost use Rattle.tree_reads.specs.leaf_maps.Numbers.{number_at};
ghost use Rattle.tree_reads.specs.Sources.{source_in};
ghost use Rattle.tree_reads.specs.node_roles.Roles.{AreRoles};
ghost use Rattle.unit_keys.specs.Placed.{AreNoted, ArePositions};

use c_grammar::productions::MEMBER;
use c_results::{Results, members_at};
use pta_base::OutOfMemory;
use std::alloc::{AllocError, Global};
use tree_reads::leaf_maps::LeafMap;
use tree_reads::node_roles::{Role, is_member_at};
use tree_reads::{Syntax, children_of, is_a};

/// How many members have been made for a node.
pub fn parts_of(results: &Results, node: u32) -> usize
    ensures { (u : UnitSpec) (s : Source) (sense : ℕ → Sense) →
        result ≡ keys.parts_of s sense (sense_in (senses_made u results.now) node) }
{
    match members_at(results, node) {
        Some(members) => members.len(),
        None => 0,
    }
}

// A position that much further on.
fn further(before: u32, parts: usize) -> Result<u32, OutOfMemory>
    ensures { IfOk result (λ n. n ≡ before + parts) }
{
    if parts > (u32::MAX - before) as usize {
        return Err(OutOfMemory);
    }
    Ok(before + parts as u32)
}

// Whether a node declares members in a list.
fn is_member_of(syntax: &Syntax, list: u32, node: u32) -> bool
    ensures { (uses : List (ℕ × ℕ)) →
        let s = source_in syntax.now uses in
        result ≡ (tree.is_a s p_member node && tree.is_number (tree.parent_of s node) list) }
{
    if !is_a(syntax, MEMBER, node) || node as usize >= syntax.tree.nodes.len() {
        return false;
    }
    match syntax.parent_of(node) {
        Some(parent) => parent == list,
        None => false,
    }
}

// Notes the position of a node, where it declares members in a list and has no position yet.
fn note_one(
    syntax: &Syntax,
    positions: &mut LeafMap,
    list: u32,
    node: u32,
    position: u32,
) -> Result<(), AllocError>
    ensures held { OnOk result ((uses : List (ℕ × ℕ)) (c : ℕ) →
        let s = source_in syntax.now uses in
        tree.is_a s p_member c ≡ true →
        tree.is_number (tree.parent_of s c) list ≡ true →
        number_at positions.new c
        ≡ (if node == c then or_else (number_at positions.old c) (Some position) else number_at positions.old c)) }
    ensures others { OnOk result ((uses : List (ℕ × ℕ)) (c : ℕ) →
        let s = source_in syntax.now uses in
        tree.is_number (tree.parent_of s c) list ≡ false → number_at positions.new c ≡ number_at positions.old c) }
{
    if is_member_of(syntax, list, node) {
        positions.add(node, position)?;
    }
    Ok(())
}

// Notes, for each of the children of a list that declares members there and has no position yet, how many parts stand before it.
fn note_positions(
    syntax: &Syntax,
    positions: &mut LeafMap,
    results: &Results,
    list: u32,
    children: &[u32],
) -> Result<(), OutOfMemory>
    ensures held { OnOk result ((u : UnitSpec) (uses : List (ℕ × ℕ)) (c : ℕ) →
        let s = source_in syntax.now uses in
        tree.is_a s p_member c ≡ true →
        tree.is_number (tree.parent_of s c) list ≡ true →
        number_at positions.new c
        ≡ or_else (number_at positions.old c)
        (if contains children.now c then Some (keys.parts_before s (sense_in (senses_made u results.now)) c children.now) else None)) }
    ensures others { OnOk result ((uses : List (ℕ × ℕ)) (c : ℕ) →
        let s = source_in syntax.now uses in
        tree.is_number (tree.parent_of s c) list ≡ false → number_at positions.new c ≡ number_at positions.old c) }
{
    let mut before: u32 = 0;
    for child in children {
        note_one(syntax, positions, list, *child, before)?;
        let sum = further(before, parts_of(results, *child))?;
        before = sum;
    }
    Ok(())
}

// Notes the positions of all that declare members in the same list as one more node, if that declares members and has no position yet.
fn note_member(
    syntax: &Syntax,
    roles: &[Role],
    results: &Results,
    positions: &mut LeafMap,
    node: u32,
) -> Result<(), OutOfMemory>
    requires { node < length syntax.now.tree.now.nodes.items }
    ensures { OnOk result ((u : UnitSpec) (uses : List (ℕ × ℕ)) →
        let s = source_in syntax.now uses in
        let sense = sense_in (senses_made u results.now) in
        AreRoles s roles.now → AreNoted s sense positions.old node → AreNoted s sense positions.new (node + 1)) }
{
    if !is_member_at(roles, node) {
        return Ok(());
    }
    if positions.get(node).is_some() {
        return Ok(());
    }
    let Some(list) = syntax.parent_of(node) else {
        return Ok(());
    };
    note_positions(syntax, positions, results, list, children_of(syntax, list))?;
    Ok(())
}

/// For each declaration of members how many parts stand before it in the list that has it, in time linear in the nodes but for ordered
/// look-ups. The declarations of members are known by what each node is; each list is gone through once.
pub fn positions_of(
    alloc: Global,
    syntax: &Syntax,
    roles: &[Role],
    results: &Results,
) -> Result<LeafMap, OutOfMemory>
    requires { length syntax.now.tree.now.nodes.items < 2 ^ 32 }
    ensures { IfOk result (λ positions. (u : UnitSpec) (uses : List (ℕ × ℕ)) →
        let s = source_in syntax.now uses in
        AreRoles s roles.now → ArePositions s (sense_in (senses_made u results.now)) positions (length s.nodes)) }
{
    let mut positions = LeafMap::new(alloc);
    for node in 0..syntax.tree.nodes.len() as u32 {
        note_member(syntax, roles, results, &mut positions, node)?;
    }
    Ok(positions)
}

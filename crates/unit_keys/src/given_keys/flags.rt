// The nodes by which tags are known.
#![tactic(auto)]

ghost use Rattle.std.specs.Prelude.{◌≡◌, ◌+◌, ℕ, List, length, IfOk, OnOk};
ghost use Rattle.tree_reads.specs.Sources.{source_in};
ghost use Rattle.tree_reads.specs.node_roles.Roles.{AreRoles};
ghost use Rattle.unit_keys.specs.given_keys.Declares.{Declares};
ghost use Rattle.unit_keys.specs.given_keys.Flags.{AreFlags, FlagsBelow};

use crate::given_keys::declaring::{Declaring, tag_declared};
use pta_base::OutOfMemory;
use std::alloc::Global;
use tree_reads::Syntax;
use tree_reads::node_roles::{Role, is_structure_at};

// Marks the node by which the tag of one more node is known, if that one is the specifier of a structure or union.
fn mark_node(
    syntax: &Syntax,
    roles: &[Role],
    declaring: &Declaring,
    flags: &mut Vec<bool>,
    node: u32,
) -> Result<(), OutOfMemory>
    ensures long { OnOk result (length flags.new.items ≡ length flags.old.items) }
    ensures marked { OnOk result ((uses : List (ℕ × ℕ)) →
        let s = source_in syntax.now uses in
        AreRoles s roles.now → Declares s declaring.now → FlagsBelow s node flags.old.items → FlagsBelow s (node + 1) flags.new.items) }
{
    if !is_structure_at(roles, node) {
        return Ok(());
    }
    let declared = tag_declared(syntax, declaring, node);
    if declared as usize >= flags.len() {
        return Err(OutOfMemory);
    }
    flags[declared as usize] = true;
    Ok(())
}

/// For each node whether a structure's or union's tag is known by it, by what each node is. A tag that is known by a node past the tree,
/// which no bound unit has, counts as want of memory.
pub(in crate::given_keys) fn tag_flags(
    alloc: Global,
    syntax: &Syntax,
    roles: &[Role],
    declaring: &Declaring,
) -> Result<Vec<bool>, OutOfMemory>
    ensures { IfOk result (λ flags. (uses : List (ℕ × ℕ)) →
        let s = source_in syntax.now uses in AreRoles s roles.now → Declares s declaring.now → AreFlags s flags.items) }
{
    if syntax.tree.nodes.len() > u32::MAX as usize {
        return Err(OutOfMemory);
    }
    let mut flags: Vec<bool> = vec![in alloc; false; syntax.tree.nodes.len()]?;
    for node in 0..syntax.tree.nodes.len() {
        mark_node(syntax, roles, declaring, &mut flags, node as u32)?;
    }
    Ok(flags)
}

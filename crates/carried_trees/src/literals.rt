// The compound literals among nodes, and the numbers of their entities (C11 6.5.2.5).
ghost use Rattle.std.specs.Prelude.{◌≡◌, ◌+◌, ℕ, List, Some, length, slice_get, IfOk, OnOk, IsOkUnless};
ghost use Rattle.core_tree.specs.declared.node.Node.{Node as NodeSpec};
ghost use Rattle.core_tree.specs.declared.node.NodeKind.TheVariants.{Literal};
ghost use Rattle.carried_trees.specs.Numbered.{AreNumbered};

use core_nodes::CheckFault;
use core_tree::node::{Node, NodeKind};
use std::alloc::Global;
use tree_reads::leaf_maps::LeafMap;

/// Compound literals, each by its leaf and its node; the numbers of their entities by their leaves, and the one after these.
#[derive(Drop)]
pub(crate) struct OwnLiterals {
    pub numbers: LeafMap,
    pub list: Vec<(u32, u32)>,
    pub next: u32,
}

// One literal more, unless there is one of the leaf.
fn note(own: &mut OwnLiterals, leaf: u32, at: u32) -> Result<(), CheckFault>
    ensures numbered { OnOk result ((nodes : List NodeSpec) (from first count : ℕ) (node : NodeSpec) →
        AreNumbered nodes from first count own.old →
        slice_get nodes count ≡ Some node → node.kind ≡ Literal leaf → at ≡ from + count →
        AreNumbered nodes from first (count + 1) own.new) }
    ensures memory { IsOkUnless result CheckFault.OutOfMemory }
{
    if own.numbers.get(leaf).is_some() {
        return Ok(());
    }
    let Some(after) = own.next.checked_add(1) else {
        return Err(CheckFault::OutOfMemory);
    };
    own.numbers.add(leaf, own.next)?;
    own.list.push((leaf, at))?;
    own.next = after;
    Ok(())
}

// One node more.
fn note_node(own: &mut OwnLiterals, node: &Node, at: u32) -> Result<(), CheckFault>
    ensures numbered { OnOk result ((nodes : List NodeSpec) (from first count : ℕ) →
        AreNumbered nodes from first count own.old →
        slice_get nodes count ≡ Some node.now → at ≡ from + count →
        AreNumbered nodes from first (count + 1) own.new) }
    ensures memory { IsOkUnless result CheckFault.OutOfMemory }
{
    match &node.kind {
        NodeKind::Literal(leaf) => note(own, *leaf, at),
        _ => Ok(()),
    }
}

/// The compound literals among some nodes, each at its first node, where the nodes are counted from a number on, and their numbers from
/// another one on. Only memory may want, or there are too many numbers.
pub(crate) fn literals_of(
    alloc: Global,
    nodes: &[Node],
    from: u32,
    first: u32,
) -> Result<OwnLiterals, CheckFault>
    ensures numbered { IfOk result (λ own. AreNumbered nodes.now from first (length nodes.now) own) }
    ensures memory { IsOkUnless result CheckFault.OutOfMemory }
{
    let mut own = OwnLiterals {
        numbers: LeafMap::new(alloc),
        list: Vec::new(alloc),
        next: first,
    };
    let mut at = from;
    for node in nodes {
        note_node(&mut own, node, at)?;
        let Some(after) = at.checked_add(1) else {
            return Err(CheckFault::OutOfMemory);
        };
        at = after;
    }
    Ok(own)
}

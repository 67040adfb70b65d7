// Copies of marked nodes, behind the nodes that stay.
#![tactic(auto)]

ghost use Rattle.std.specs.Prelude.{◌≡◌, ◌+◌, ◌<◌, ◌++◌, [], ◌∷◌, length, map, All, IfOk, IsOkUnless, ℕ};
ghost use Rattle.core_nodes.specs.declared.fault.CheckFault.TheVariants.{OutOfMemory};
ghost use Rattle.core_tree.specs.declared.node.Unit.{Unit as UnitSpec};
ghost use Rattle.c_types.specs.Table.{type_of};
ghost use Rattle.core_nodes.specs.PassedOn.{InOrder, Of};
ghost use Rattle.core_nodes.specs.PassedOn.{Fits};
ghost use Rattle.core_nodes.specs.Standing.{IsReady, Builds, Made, cores_at};
ghost use Rattle.core_nodes.specs.kept_nodes.Marked.{IsClosed};
ghost use Rattle.core_nodes.specs.kept_nodes.Copied as spec;
ghost use Rattle.core_nodes.specs.kept_nodes.Copied.{AreCopied};

use crate::CheckFault;
use crate::trees::push_node;
use core_tree::held::Children;
use core_tree::node::{Node, Unit};
use std::alloc::{AllocError, Global};
use std::collections::VecDeque;

// The number of a node's copy.
fn number_of(from: u32, numbers: &[u32], node: u32) -> u32
    ensures { result ≡ spec.number_of from numbers.now node }
{
    if node < from {
        return node;
    }
    match numbers.get((node - from) as usize) {
        Some(number) => *number,
        None => 0,
    }
}

// The numbers of the copies of some nodes.
fn renumbered(
    alloc: Global,
    from: u32,
    numbers: &[u32],
    children: &[u32],
) -> Result<Children, AllocError>
    ensures { IfOk result (λ list. list ≡ map (spec.number_of from numbers.now) children.now) }
{
    let mut list = Vec::new(alloc);
    for child in children {
        list.push(number_of(from, numbers, *child))?;
    }
    Children::of(alloc, list)
}

// A copy of one node, over the copies of its children.
fn copy_node(
    alloc: Global,
    unit: &mut Unit,
    from: u32,
    numbers: &[u32],
    node: Node,
) -> Result<u32, CheckFault>
    requires ready { IsReady unit.old }
    requires ty { node.ty.0 < length unit.old.types.terms }
    requires children { All (λ c. c < length unit.old.nodes.items) (map (spec.number_of from numbers.now) node.children) }
    ensures ready { IsReady unit.new }
    ensures builds { Builds unit.old unit.new }
    ensures made { Made unit.new result
        (Fits (Of node.kind node.place (type_of unit.old.types node.ty.0)
        (cores_at unit.old (map (spec.number_of from numbers.now) node.children)))) }
    ensures added { IfOk result (λ i. (i ≡ length unit.old.nodes.items)
        × (unit.new.nodes.items
        ≡ unit.old.nodes.items ++ record node { children = map (spec.number_of from numbers.now) node.children } ∷ [])) }
    ensures types { unit.new.types ≡ unit.old.types }
    ensures memory { IsOkUnless result OutOfMemory }
{
    let children = renumbered(alloc, from, numbers, node.children.as_slice())?;
    push_node(unit, node.kind, node.place, node.ty, children)
}

/// Copies the marked ones of the nodes that were cut off a unit behind those that are left: the number of each one's copy, and 0 for
/// those that aren't marked.
pub fn copies(
    alloc: Global,
    unit: &mut Unit,
    from: u32,
    cut: VecDeque<Node>,
    marks: &[bool],
) -> Result<Vec<u32>, CheckFault>
    requires ready { IsReady unit.old }
    requires from { from ≡ length unit.old.nodes.items }
    requires order { InOrder unit.old.types (unit.old.nodes.items ++ cut.items) }
    requires closed { IsClosed (unit.old.nodes.items ++ cut.items) from marks.now }
    ensures ready { IsReady unit.new }
    ensures builds { Builds unit.old unit.new }
    ensures copied { IfOk result (λ numbers. AreCopied unit.old.types (unit.old.nodes.items ++ cut.items) from marks.now (length cut.items)
        numbers.items unit.new) }
    ensures memory { IsOkUnless result OutOfMemory }
{
    let mut rest = cut;
    let mut numbers = Vec::new(alloc);
    while let Some(node) = rest.pop_front() {
        if marks[numbers.len()] {
            let number = copy_node(alloc, unit, from, numbers.as_slice(), node)?;
            numbers.push(number)?;
        } else {
            numbers.push(0)?;
        }
    }
    Ok(numbers)
}

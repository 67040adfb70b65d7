//! The nodes of the units, one unit after another.

ghost use Rattle.std.specs.Prelude.{◌≡◌, ◌<◌, ◌≤◌, ◌+◌, ◌^◌, ℕ, Some, IfOk, OnOk, drop, length, map, slice_get, slice_index};
ghost use Rattle.core_tree.specs.declared.node.Unit.{Unit as UnitSpec};
ghost use Rattle.core_tree.specs.declared.node.Node.{Node as NodeSpec};
ghost use Rattle.link_model.specs.link_types.Starts.{AreSums};
ghost use Rattle.unit_link.specs.link_program.Rows.{entity_in};
ghost use Rattle.link_units.specs.link_whole.Placed.{AreNamed};
ghost use Rattle.link_units.specs.Nodes.{AreAdded, AreUnitNodes, ArePlaceable, AreNodesOf, node_counts_of};

use core_tree::{Node, Unit};
use pta_base::{OutOfMemory, Text};
use std::alloc::Global;
use std::collections::VecDeque;
use unit_link::link_program::numbers::EntityNumbers;
use unit_link::nodes::moved_node;

// A unit's nodes behind those that are there, where the unit's types and nodes begin at those numbers in the program,
// with the program's numbers of the unit's entities.
fn add_nodes(
    alloc: Global,
    list: &mut Vec<Node>,
    nodes: Vec<Node>,
    types: u32,
    start: u32,
    entities: &[u32],
) -> Result<(), OutOfMemory>
    requires few { start + length nodes.items < 2 ^ 32 }
    requires types { (n : ℕ) (x : NodeSpec) → slice_get nodes.items n ≡ Some x → types + x.ty.0 < 2 ^ 32 }
    requires named { AreNamed (length entities.now) nodes.items }
    ensures { OnOk result
        (AreAdded types start (λ e. slice_index entities.now e) nodes.items list.old.items list.new.items) }
{
    let mut rest = VecDeque::from_vec(nodes);
    while let Some(node) = rest.pop_front() {
        list.push(moved_node(alloc, node, types, start, entities)?)?;
    }
    Ok(())
}

// The program's numbers of a unit's entities, and of those behind them.
fn entities_from(numbers: &EntityNumbers, u: usize) -> &[u32]
    requires start { u < length numbers.now.starts.items }
    requires within { slice_index numbers.now.starts.items u ≤ length numbers.now.numbers.items }
    ensures { result.now ≡ drop (slice_index numbers.now.starts.items u) numbers.now.numbers.items }
{
    let starts = numbers.starts.as_slice();
    let list = numbers.numbers.as_slice();
    &list[starts[u] as usize..]
}

// The nodes of the unit of that position behind those that are there.
fn add_unit(
    alloc: Global,
    list: &mut Vec<Node>,
    nodes: Vec<Node>,
    type_starts: &[u32],
    node_starts: &[u32],
    numbers: &EntityNumbers,
    u: usize,
) -> Result<(), OutOfMemory>
    requires { AreUnitNodes type_starts.now node_starts.now numbers.now u nodes.items }
    ensures { OnOk result
        (AreAdded (slice_index type_starts.now u) (slice_index node_starts.now u)
        (entity_in numbers.now.starts.items numbers.now.numbers.items u) nodes.items list.old.items list.new.items) }
{
    let entities = entities_from(numbers, u);
    let _next = node_starts[u + 1];
    add_nodes(alloc, list, nodes, type_starts[u], node_starts[u], entities)
}

/// The names of the units and all their nodes, in order: the types of unit u begin at `type_starts[u]` in the program's
/// table, and its nodes at `node_starts[u]`. Only memory may want.
pub fn names_and_nodes(
    alloc: Global,
    units: Vec<Unit>,
    type_starts: &[u32],
    node_starts: &[u32],
    numbers: &EntityNumbers,
) -> Result<(Vec<Text>, Vec<Node>), OutOfMemory>
    requires starts { AreSums (node_counts_of units.items) node_starts.now }
    requires placeable { ArePlaceable units.items type_starts.now numbers.now }
    ensures names { IfOk result (λ r. r.0.items ≡ map (λ (x : UnitSpec). x.name) units.items) }
    ensures nodes { IfOk result (λ r. AreNodesOf units.items type_starts.now node_starts.now numbers.now (length units.items) r.1.items) }
{
    let mut rest = VecDeque::from_vec(units);
    let mut names = Vec::new(alloc);
    let mut list = Vec::new(alloc);
    let mut u = 0usize;
    while let Some(unit) = rest.pop_front() {
        let Unit { name, nodes, .. } = unit;
        names.push(name)?;
        add_unit(
            alloc,
            &mut list,
            nodes,
            type_starts,
            node_starts,
            numbers,
            u,
        )?;
        u += 1;
    }
    Ok((names, list))
}

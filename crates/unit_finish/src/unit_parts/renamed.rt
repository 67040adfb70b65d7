// Nodes that name entities by their numbers.
#![tactic(auto)]

ghost use Rattle.std.specs.Prelude.{◌≡◌, ◌<◌, length, map, IfOk, OnOk};
ghost use Rattle.tree_reads.specs.leaf_maps.Numbers.{number_at};
ghost use Rattle.unit_finish.specs.unit_parts.Renamed as spec;
ghost use Rattle.unit_finish.specs.unit_parts.Turns.{Comes};

use core_tree::held::HeldList;
use core_tree::node::{Node, NodeKind};
use std::alloc::{AllocError, Global};
use std::collections::VecDeque;
use tree_reads::leaf_maps::LeafMap;

// The number of the entity of a leaf, and 0 where there is none.
fn entity_number(numbers: &LeafMap, leaf: u32) -> u32
    ensures { result ≡ spec.entity_number (number_at numbers.now) leaf }
{
    numbers.get(leaf).unwrap_or(0)
}

// The numbers of the entities of some leaves.
fn entity_numbers(
    alloc: Global,
    numbers: &LeafMap,
    leaves: &[u32],
) -> Result<HeldList<u32>, AllocError>
    ensures { IfOk result (λ list. list ≡ map (spec.entity_number (number_at numbers.now)) leaves.now) }
{
    let mut list = Vec::new(alloc);
    for leaf in leaves {
        list.push(entity_number(numbers, *leaf))?;
    }
    HeldList::of(alloc, list)
}

// A kind with the numbers of the entities that it names.
fn renamed(alloc: Global, numbers: &LeafMap, kind: NodeKind) -> Result<NodeKind, AllocError>
    ensures { IfOk result (λ new. new ≡ spec.renamed (number_at numbers.now) kind) }
{
    match kind {
        NodeKind::Named(d) => Ok(NodeKind::Named(entity_number(numbers, d))),
        NodeKind::FunctionName(d) => Ok(NodeKind::FunctionName(entity_number(numbers, d))),
        NodeKind::Literal(d) => Ok(NodeKind::Literal(entity_number(numbers, d))),
        NodeKind::VarArgs(d) => Ok(NodeKind::VarArgs(entity_number(numbers, d))),
        NodeKind::Initialise { entity, paths } => Ok(NodeKind::Initialise {
            entity: entity_number(numbers, entity),
            paths,
        }),
        NodeKind::Block(ds) => {
            let ds = entity_numbers(alloc, numbers, ds.as_slice())?;
            Ok(NodeKind::Block(ds))
        }
        NodeKind::For {
            entities,
            condition,
            after,
        } => Ok(NodeKind::For {
            entities: entity_numbers(alloc, numbers, entities.as_slice())?,
            condition,
            after,
        }),
        other => Ok(other),
    }
}

// A node whose kind has the numbers of the entities that it names.
fn renamed_node(alloc: Global, numbers: &LeafMap, node: Node) -> Result<Node, AllocError>
    ensures { IfOk result (λ new. new ≡ spec.renamed_node (number_at numbers.now) node) }
{
    let kind = renamed(alloc, numbers, node.kind)?;
    Ok(Node {
        kind,
        place: node.place,
        ty: node.ty,
        children: node.children,
    })
}

// Takes a node from the front, and puts it at the end with the numbers of the entities that it names.
fn turn(alloc: Global, numbers: &LeafMap, ring: &mut VecDeque<Node>) -> Result<(), AllocError>
    requires { 0 < length ring.old.items }
    ensures { OnOk result (Comes (spec.renamed_node (number_at numbers.now)) ring.old.items ring.new.items) }
{
    let Some(node) = ring.pop_front() else {
        return Ok(());
    };
    ring.push_back(renamed_node(alloc, numbers, node)?)?;
    Ok(())
}

/// The same nodes, with numbers of entities in place of leaves; a leaf without a number has 0.
pub fn rename_all(
    alloc: Global,
    numbers: &LeafMap,
    nodes: Vec<Node>,
) -> Result<Vec<Node>, AllocError>
    ensures { IfOk result (λ new. new.items ≡ map (spec.renamed_node (number_at numbers.now)) nodes.items) }
{
    let count = nodes.len();
    let mut ring = VecDeque::from_vec(nodes);
    for _at in 0..count {
        turn(alloc, numbers, &mut ring)?;
    }
    Ok(ring.into_vec())
}

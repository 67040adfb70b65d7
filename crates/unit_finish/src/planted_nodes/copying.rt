// Copies of nodes, and of what is declared.
#![tactic(auto)]

ghost use Rattle.std.specs.Prelude.{◌≡◌, ◌+◌, ◌<◌, ◌≤◌, ◌^◌, ⊤, length, get_or, Some, None, MatchOption, IfOk, ℕ};
ghost use Rattle.unit_finish.specs.planted_nodes.Grown.{end_at};
ghost use Rattle.unit_finish.specs.planted_nodes.Copied as spec;
ghost use Rattle.unit_finish.specs.planted_nodes.Copied.{numbers_from, copy_at, copies_to, with_places};

use crate::planted_nodes::kinds::copied_kind;
use crate::unit_parts::Declared;
use c_types::term::TypeId;
use core_tree::held::Children;
use core_tree::node::{Node, NodeKind};
use pta_base::Place;
use std::alloc::{AllocError, Global};
use std::collections::VecDeque;

// The number of a position: the last one is 0.
fn number_of(total: u32, position: u32) -> u32
    requires { position < total }
    ensures { result ≡ spec.number_of total position }
{
    total - (position + 1)
}

// The numbers of so many positions.
fn numbers_from(alloc: Global, total: u32, start: u32, count: usize) -> Result<Children, AllocError>
    requires { start + count ≤ total }
    ensures { IfOk result (λ list. list ≡ numbers_from total start count) }
{
    let mut list = Vec::new(alloc);
    for k in 0..count {
        list.push(number_of(total, start + k as u32))?;
    }
    Children::of(alloc, list)
}

// A copy of a node over children of those numbers.
fn copied(alloc: Global, node: &Node, children: Children) -> Result<Node, AllocError>
    ensures { IfOk result (λ copy. copy ≡ record node.now { children = children }) }
{
    Ok(Node {
        kind: copied_kind(alloc, &node.kind)?,
        place: node.place,
        ty: node.ty,
        children,
    })
}

// What stands for a node that isn't there.
fn no_node() -> Node
    ensures { result ≡ spec.no_node }
{
    Node {
        kind: NodeKind::Skip,
        place: Place {
            unit: 0,
            line: 0,
            column: 0,
        },
        ty: TypeId(0),
        children: Children::none(),
    }
}

// A copy of the node at a position, over the numbers of its children.
fn copy_at(
    alloc: Global,
    nodes: &[Node],
    origins: &[u32],
    starts: &[u32],
    position: usize,
) -> Result<Node, AllocError>
    requires position { position < length origins.now }
    requires starts { position < length starts.now }
    requires few { length origins.now < 2 ^ 32 }
    requires within { end_at nodes.now origins.now starts.now position ≤ length origins.now }
    ensures { IfOk result (λ copy. copy ≡ copy_at nodes.now origins.now starts.now position) }
{
    let Some(node) = nodes.get(origins[position] as usize) else {
        return Ok(no_node());
    };
    let total = origins.len() as u32;
    let count = node.children.as_slice().len();
    let children = numbers_from(alloc, total, starts[position], count)?;
    copied(alloc, node, children)
}

/// The copies of all positions' nodes, those of the last positions first.
pub(in crate::planted_nodes) fn copies(
    alloc: Global,
    nodes: &[Node],
    origins: &[u32],
    starts: &[u32],
) -> Result<Vec<Node>, AllocError>
    requires few { length origins.now < 2 ^ 32 }
    requires done { length starts.now ≡ length origins.now }
    requires within { (p : ℕ) → p < length starts.now → end_at nodes.now origins.now starts.now p ≤ length origins.now }
    ensures { IfOk result (λ list. list.items ≡ copies_to nodes.now origins.now starts.now (length origins.now)) }
{
    let mut list = Vec::with_capacity(alloc, origins.len())?;
    for number in 0..origins.len() {
        let position = origins.len() - (number + 1);
        let node = copy_at(alloc, nodes, origins, starts, position)?;
        list.push(node)?;
    }
    Ok(list)
}

// What is declared, with the number of the place of its body.
fn with_place(total: u32, item: Declared, place: Option<u32>) -> Declared
    requires { MatchOption place ⊤ (λ at. at < total) }
    ensures { result ≡ spec.with_place total item place }
{
    let body = match place {
        Some(at) => Some(number_of(total, at)),
        None => None,
    };
    Declared {
        leaf: item.leaf,
        name: item.name,
        place: item.place,
        ty: item.ty,
        linkage: item.linkage,
        storage: item.storage,
        owner: item.owner,
        body,
    }
}

/// What is declared, with the numbers of the places of bodies.
pub(in crate::planted_nodes) fn with_places(
    alloc: Global,
    total: u32,
    list: Vec<Declared>,
    places: &[Option<u32>],
) -> Result<Vec<Declared>, AllocError>
    requires long { length places.now ≡ length list.items }
    requires within { (e at : ℕ) → get_or places.now e None ≡ Some at → at < total }
    ensures { IfOk result (λ moved. moved.items ≡ with_places total list.items places.now) }
{
    let mut moved = Vec::with_capacity(alloc, list.len())?;
    let mut rest = VecDeque::from_vec(list);
    while let Some(item) = rest.pop_front() {
        let place = places[moved.len()];
        moved.push(with_place(total, item, place))?;
    }
    Ok(moved)
}

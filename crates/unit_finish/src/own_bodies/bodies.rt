// An automatic object's body is the node that initialises it in the body of a function (C11 6.7.9, 6.8).
#![tactic(auto)]

ghost use Rattle.std.specs.Prelude.{◌≡◌, ◌<◌, ◌^◌, ◌++◌, length, map, All, IfOk, OnOk, IsOkUnless};
ghost use Rattle.core_nodes.specs.declared.fault.CheckFault.TheVariants.{OutOfMemory};
ghost use Rattle.core_nodes.specs.kept_nodes.Marked.{ChildrenFirst};
ghost use Rattle.tree_reads.specs.leaf_maps.Numbers.{number_at};
ghost use Rattle.unit_finish.specs.unit_parts.Entities.{bodies_of};
ghost use Rattle.unit_finish.specs.own_bodies.Own as spec;
ghost use Rattle.unit_finish.specs.own_bodies.Own.{initialised_at, initialises_from, lasting_bodies, HaveOwnBodies};

use crate::unit_parts::{Declared, marks_under};
use core_nodes::CheckFault;
use core_tree::node::{Node, NodeKind, Storage};
use std::alloc::{AllocError, Global};
use tree_reads::leaf_maps::LeafMap;

// Whether it is an automatic object.
fn is_automatic(item: &Declared) -> bool
    ensures { result ≡ spec.is_automatic item.now.storage }
{
    matches!(item.storage, Storage::Automatic)
}

// The bodies of a list, but for those of automatic objects, in order.
fn lasting_bodies(alloc: Global, list: &[Declared]) -> Result<Vec<u32>, AllocError>
    ensures { IfOk result (λ bodies. bodies.items ≡ lasting_bodies list.now) }
{
    let mut bodies = Vec::new(alloc);
    for item in list {
        if !is_automatic(item) {
            if let Some(body) = item.body {
                bodies.push(body)?;
            }
        }
    }
    Ok(bodies)
}

// Adds the leaf and the number of a node, if it is marked and initialises an object.
fn add_initialiser(
    pairs: &mut Vec<(u32, u32)>,
    marked: bool,
    node: &Node,
    number: u32,
) -> Result<(), AllocError>
    ensures { OnOk result (pairs.new.items ≡ pairs.old.items ++ initialised_at number marked node.now.kind) }
{
    if !marked {
        return Ok(());
    }
    if let NodeKind::Initialise { entity, .. } = &node.kind {
        pairs.push((*entity, number))?;
    }
    Ok(())
}

// The leaf and the number of each marked node that initialises an object.
fn initialises_in(
    alloc: Global,
    nodes: &[Node],
    marks: &[bool],
) -> Result<Vec<(u32, u32)>, AllocError>
    requires few { length nodes.now < 2 ^ 32 }
    requires long { length marks.now ≡ length nodes.now }
    ensures { IfOk result (λ pairs. pairs.items ≡ initialises_from 0 marks.now nodes.now) }
{
    let mut pairs = Vec::new(alloc);
    for (i, node) in nodes.iter().enumerate() {
        add_initialiser(&mut pairs, marks[i], node, i as u32)?;
    }
    Ok(pairs)
}

// The same with the node that initialises it, if it is an automatic object.
fn with_own_body(numbers: &LeafMap, item: Declared) -> Declared
    ensures { result ≡ spec.with_own_body (number_at numbers.now) item }
{
    if !is_automatic(&item) {
        return item;
    }
    let body = numbers.get(item.leaf);
    Declared {
        leaf: item.leaf,
        name: item.name,
        place: item.place,
        ty: item.ty,
        linkage: item.linkage,
        storage: item.storage,
        owner: item.owner,
        body,
    }
}

// The same list with what is found for their leaves as the bodies of automatic objects.
fn owned_by(
    alloc: Global,
    numbers: &LeafMap,
    list: Vec<Declared>,
) -> Result<Vec<Declared>, AllocError>
    ensures { IfOk result (λ owned. owned.items ≡ map (spec.with_own_body (number_at numbers.now)) list.items) }
{
    list.into_iter()
        .map(|item| with_own_body(numbers, item))
        .collect(alloc)
}

/// The same list, in which the body of each automatic object is the first node that initialises it, by its leaf, of the nodes that stand
/// under the bodies of all others. It takes n log n steps over n nodes and names. Only memory may want, or there are 2^32 nodes.
pub fn with_own_bodies(
    alloc: Global,
    nodes: &[Node],
    list: Vec<Declared>,
) -> Result<Vec<Declared>, CheckFault>
    requires order { ChildrenFirst nodes.now }
    requires bodies { All (λ b. b < length nodes.now) (bodies_of list.items) }
    ensures own { IfOk result (λ owned. HaveOwnBodies nodes.now list.items owned.items) }
    ensures within { IfOk result (λ owned. All (λ b. b < length nodes.now) (bodies_of owned.items)) }
    ensures memory { IsOkUnless result OutOfMemory }
{
    if nodes.len() > u32::MAX as usize {
        return Err(CheckFault::OutOfMemory);
    }
    let tops = lasting_bodies(alloc, list.as_slice())?;
    let marks = marks_under(alloc, nodes, tops.as_slice())?;
    let pairs = initialises_in(alloc, nodes, marks.as_slice())?;
    let numbers = LeafMap::of_pairs(alloc, pairs.as_slice())?;
    let owned = owned_by(alloc, &numbers, list)?;
    Ok(owned)
}

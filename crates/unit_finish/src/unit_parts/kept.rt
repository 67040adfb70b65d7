// The nodes that stay, and their new numbers.
#![tactic(auto)]

ghost use Rattle.std.specs.Prelude.{◌≡◌, ◌<◌, ◌≤◌, ◌^◌, length, map, IfOk, OnOk, ℕ};
ghost use Rattle.unit_finish.specs.unit_parts.Numbered as spec;
ghost use Rattle.unit_finish.specs.unit_parts.Numbered.{numbered_from, kept_of};
ghost use Rattle.unit_finish.specs.unit_parts.Turns.{Turns};

use core_tree::held::Children;
use core_tree::node::Node;
use std::alloc::{AllocError, Global};
use std::collections::VecDeque;

/// The new number of each node: the marked ones are counted from 0, and the others have none.
pub fn numbers_of(alloc: Global, marks: &[bool]) -> Result<Vec<Option<u32>>, AllocError>
    requires { length marks.now < 2 ^ 32 }
    ensures { IfOk result (λ numbers. numbers.items ≡ numbered_from 0 marks.now) }
{
    let mut numbers = Vec::new(alloc);
    let mut next = 0;
    for mark in marks {
        if *mark {
            numbers.push(Some(next))?;
            next += 1;
        } else {
            numbers.push(None)?;
        }
    }
    Ok(numbers)
}

/// The new number of a node, and 0 where it has none.
pub fn new_number(numbers: &[Option<u32>], node: u32) -> u32
    ensures { result ≡ spec.new_number numbers.now node }
{
    match numbers.get(node as usize) {
        Some(number) => number.unwrap_or(0),
        None => 0,
    }
}

// The new numbers of many nodes.
fn many_numbers(
    alloc: Global,
    numbers: &[Option<u32>],
    nodes: &[u32],
) -> Result<Children, AllocError>
    ensures { IfOk result (λ list. list ≡ map (spec.new_number numbers.now) nodes.now) }
{
    let mut list = Vec::new(alloc);
    for node in nodes {
        list.push(new_number(numbers, *node))?;
    }
    Children::of(alloc, list)
}

// The new numbers of some nodes. Up to three take no memory of their own.
fn new_numbers(
    alloc: Global,
    numbers: &[Option<u32>],
    nodes: &[u32],
) -> Result<Children, AllocError>
    ensures { IfOk result (λ list. list ≡ map (spec.new_number numbers.now) nodes.now) }
{
    match nodes {
        [] => Ok(Children::none()),
        [only] => Ok(Children::one(new_number(numbers, *only))),
        [first, second] => Ok(Children::two(
            new_number(numbers, *first),
            new_number(numbers, *second),
        )),
        [first, second, third] => Ok(Children::three(
            new_number(numbers, *first),
            new_number(numbers, *second),
            new_number(numbers, *third),
        )),
        _ => many_numbers(alloc, numbers, nodes),
    }
}

// A node over the new numbers of its children.
fn moved(alloc: Global, numbers: &[Option<u32>], node: Node) -> Result<Node, AllocError>
    ensures { IfOk result (λ new. new ≡ spec.moved numbers.now node) }
{
    let children = new_numbers(alloc, numbers, node.children.as_slice())?;
    Ok(Node {
        kind: node.kind,
        place: node.place,
        ty: node.ty,
        children,
    })
}

// Takes a node from the front, and puts it at the end over the new numbers of its children, if it has a new number.
fn turn(
    alloc: Global,
    numbers: &[Option<u32>],
    ring: &mut VecDeque<Node>,
    at: usize,
) -> Result<(), AllocError>
    requires place { at < length numbers.now }
    requires filled { 0 < length ring.old.items }
    ensures { OnOk result (Turns numbers.now at ring.old.items ring.new.items) }
{
    let Some(node) = ring.pop_front() else {
        return Ok(());
    };
    if numbers[at].is_none() {
        return Ok(());
    }
    ring.push_back(moved(alloc, numbers, node)?)?;
    Ok(())
}

// Of nodes that each have a place in the list of numbers, those that have a new number, with no second list beside theirs.
fn turned(alloc: Global, numbers: &[Option<u32>], nodes: Vec<Node>) -> Result<Vec<Node>, AllocError>
    requires { length nodes.items ≤ length numbers.now }
    ensures { IfOk result (λ kept. kept.items ≡ kept_of nodes.items numbers.now) }
{
    let count = nodes.len();
    let mut ring = VecDeque::from_vec(nodes);
    for at in 0..count {
        turn(alloc, numbers, &mut ring, at)?;
    }
    Ok(ring.into_vec())
}

/// The nodes that have a new number, in order, over the new numbers of their children.
pub fn kept_nodes(
    alloc: Global,
    numbers: &[Option<u32>],
    nodes: Vec<Node>,
) -> Result<Vec<Node>, AllocError>
    ensures { IfOk result (λ kept. kept.items ≡ kept_of nodes.items numbers.now) }
{
    let mut nodes = nodes;
    nodes.truncate(numbers.len());
    let mut kept = turned(alloc, numbers, nodes)?;
    kept.shrink_to_fit();
    Ok(kept)
}

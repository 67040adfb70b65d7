// Where a jump goes, and what it leaves of a frame.

ghost use Rattle.std.specs.Prelude.{◌≡◌, ◌<◌, ◌++◌, ◌∷◌, All, IfOk, OnOk, length};
ghost use Rattle.core_tree.specs.Seen.{core_of};
ghost use Rattle.ref_state.specs.declared.items.Item.TheVariants.{Do};
ghost use Rattle.ref_blocks.specs.Plans.{IsPlan, EndsKnown, blocks_by};
ghost use Rattle.ref_blocks.specs.Ways.{kind_at, is_label};
ghost use Rattle.ref_blocks.specs.Jumps.{is_wait_of, items_to, is_above, jump, meeting, wait_for, waits_to, blocks_with};

use crate::block::Block;
use crate::blocks::{blocks_around, blocks_on, enter_others, leave_others, push_own};
use crate::loops::left_behind;
use crate::plan::Plan;
use crate::ways::{Link, is_label};
use c_types::term::OutOfMemory;
use core_tree::Node;
use core_tree::trees::Trees;
use pta_base::Listing;
use ref_mem::memory::Memory;
use ref_state::doors::{Change, Doors};
use ref_state::items::{Item, Items, wait};
use ref_state::lists::push;
use std::alloc::Global;

// Whether an item is that of a node that waits.
fn is_wait_of(item: &Item, a: u32) -> bool
    ensures { result ≡ is_wait_of a item.now }
{
    match item {
        Item::Wait { node, .. } => *node == a,
        Item::Do(_) | Item::Library { .. } | Item::Result(_) => false,
    }
}

/// How many items stand on the one of a node that waits, and it.
pub fn items_to(items: &Items, a: u32) -> usize
    ensures { result ≡ items_to a items.now }
{
    let mut count = 0;
    for i in 0..items.len() {
        count += 1;
        if let Some(item) = items.from_top(i) {
            if is_wait_of(item, a) {
                return count;
            }
        }
    }
    count
}

// Whether a node is a label.
fn is_label_at(nodes: &[Node], n: u32) -> bool
    requires { n < length nodes.now }
    ensures { result ≡ is_label (kind_at nodes.now n) }
{
    is_label(&nodes[n as usize].kind)
}

// Puts the item of a statement, a child of which is being done, behind others.
fn push_wait(
    alloc: Global,
    nodes: &[Node],
    link: Link,
    on: &mut Vec<Item>,
) -> Result<(), OutOfMemory>
    requires { link.node < length nodes.now }
    ensures { OnOk result (on.new.items ≡ on.old.items ++ wait_for nodes.now link) }
{
    if is_label_at(nodes, link.node) {
        return Ok(());
    }
    let node = &nodes[link.node as usize];
    let left = left_behind(&node.kind, node.children.as_slice(), link.child);
    let left = Vec::from_slice(alloc, left)?;
    push(on, wait(alloc, link.node, Listing::of(left)))
}

// A node that is done next, and below it the items on a way up as far as a statement.
fn waits_to(
    alloc: Global,
    nodes: &[Node],
    links: &[Link],
    a: u32,
    t: u32,
) -> Result<Items, OutOfMemory>
    requires { All (λ l. (l.node < length nodes.now) × (l.child < length nodes.now)) links.now }
    ensures { IfOk result (λ items. items ≡ Do t ∷ waits_to nodes.now a links.now) }
{
    let mut on = Vec::new(alloc);
    push(&mut on, Item::Do(t))?;
    for link in links {
        push_wait(alloc, nodes, *link, &mut on)?;
        if link.node == a {
            return Ok(Items::of(on));
        }
    }
    Ok(Items::of(on))
}

/// Where a jump comes from and where it goes: the blocks around it, the statement in which both ends stand, and the node that
/// is done next.
#[derive(Clone, Copy)]
pub struct Target<'a> {
    pub inside: &'a [Block],
    pub over: u32,
    pub node: u32,
}

/// A jump (C11 6.8.4.2, 6.8.6): the blocks that are left and entered, and the items of the statements on the way down to the
/// target.
pub fn jump(
    alloc: Global,
    trees: &Trees<'_>,
    plan: &Plan,
    memory: &Memory,
    items: &Items,
    doors: Doors,
    target: Target<'_>,
) -> Result<Change, OutOfMemory>
    requires plan { IsPlan (core_of trees.now) plan.now }
    requires ended { EndsKnown memory.now doors }
    ensures off { IfOk result (λ change.
        change.off
        ≡ (jump (core_of trees.now) items.now (blocks_by memory.now doors)
        target.entry.inside.now target.entry.over target.entry.node).off) }
    ensures on { IfOk result (λ change.
        change.on
        ≡ (jump (core_of trees.now) items.now (blocks_by memory.now doors)
        target.entry.inside.now target.entry.over target.entry.node).on) }
    ensures blocks { IfOk result (λ change.
        blocks_by memory.now change.doors
        ≡ (jump (core_of trees.now) items.now (blocks_by memory.now doors)
        target.entry.inside.now target.entry.over target.entry.node).blocks) }
    ensures ended { IfOk result (λ change. EndsKnown memory.now change.doors) }
{
    let mut doors = doors;
    let links = plan.above(alloc, trees, target.node)?;
    let around = blocks_on(alloc, trees.nodes, links.as_slice())?;
    leave_others(
        alloc,
        trees,
        plan,
        memory,
        &mut doors,
        target.inside,
        around.as_slice(),
    )?;
    enter_others(
        alloc,
        trees,
        plan,
        memory,
        &mut doors,
        around.as_slice(),
        target.inside,
    )?;
    let on = waits_to(
        alloc,
        trees.nodes,
        links.as_slice(),
        target.over,
        target.node,
    )?;
    let off = items_to(items, target.over);
    Ok(Change { off, on, doors })
}

// Whether a node is among those of a way up.
fn is_above(n: u32, links: &[Link]) -> bool
    ensures { result ≡ is_above n links.now }
{
    links.iter().any(|link| link.node == n)
}

/// The nearest statement on the way up from a label that contains a goto too, and is no label.
pub fn meeting(nodes: &[Node], from: &[Link], to: &[Link]) -> Option<u32>
    requires { All (λ l. (l.node < length nodes.now) × (l.child < length nodes.now)) to.now }
    ensures { result ≡ meeting nodes.now from.now to.now }
{
    for link in to {
        if is_above(link.node, from) && !is_label_at(nodes, link.node) {
            return Some(link.node);
        }
    }
    None
}

/// The blocks around a node, and its own, the innermost first.
pub fn blocks_with(
    alloc: Global,
    trees: &Trees<'_>,
    plan: &Plan,
    n: u32,
) -> Result<Vec<Block>, OutOfMemory>
    requires plan { IsPlan (core_of trees.now) plan.now }
    requires node { n < length trees.now.nodes.now }
    ensures { IfOk result (λ blocks. blocks.items ≡ blocks_with (core_of trees.now) n) }
{
    let around = blocks_around(alloc, trees, plan, n)?;
    let mut blocks = Vec::new(alloc);
    push_own(&mut blocks, trees.nodes, Link { node: n, child: n })?;
    blocks.extend_from_slice(around.as_slice())?;
    Ok(blocks)
}

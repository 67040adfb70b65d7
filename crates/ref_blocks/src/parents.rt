// The node above each node, and ways up by them.

ghost use Rattle.std.specs.Prelude.{◌≡◌, ◌<◌, ◌^◌, Option, None, ℕ, All};
ghost use Rattle.std.specs.Prelude.{IfOk, IfSome, [], ◌∷◌, length, replicate, slice_index_or, slice_get};
ghost use Rattle.ref_blocks.specs.Parents.{AreParents, noted};
ghost use Rattle.ref_blocks.specs.Ways.{parent_of, above, root_of, kind_at, is_sought, nearest};
ghost use Rattle.ref_blocks.specs.Around.{blocks_in};

use crate::block::Block;
use crate::ways::{Link, Sought, is_block_at, is_loop, is_switch, opens_part};
use c_types::term::OutOfMemory;
use core_tree::{Node, NodeKind};
use ref_state::lists::push;
use std::alloc::Global;

// A list without nodes above.
fn none_above(alloc: Global, count: usize) -> Result<Vec<Option<u32>>, OutOfMemory>
    ensures { IfOk result (λ parents. parents.items ≡ replicate count None) }
{
    let mut parents = Vec::new(alloc);
    for _ in 0..count {
        push(&mut parents, None)?;
    }
    Ok(parents)
}

// A node is above its child, where no other one is known.
fn note(parents: &mut [Option<u32>], c: u32, p: u32)
    ensures { (n : ℕ) → n < length parents.old
        → slice_index_or parents.new n None ≡ noted p (c ∷ []) n (slice_index_or parents.old n None) }
{
    let at = c as usize;
    if at < parents.len() && c < p && parents[at].is_none() {
        parents[at] = Some(p);
    }
}

// A node is above its children, where no other one is known.
fn note_children(parents: &mut [Option<u32>], children: &[u32], p: u32)
    ensures { (n : ℕ) → n < length parents.old
        → slice_index_or parents.new n None ≡ noted p children.now n (slice_index_or parents.old n None) }
{
    for c in children {
        note(parents, *c, p);
    }
}

// Each node is above its children, where no earlier one is.
fn note_all(parents: &mut [Option<u32>], nodes: &[Node])
    requires count { length nodes.now < 2 ^ 32 }
    requires none { parents.old ≡ replicate (length nodes.now) None }
    ensures { AreParents nodes.now parents.new }
{
    for (p, node) in nodes.iter().enumerate() {
        note_children(parents, node.children.as_slice(), p as u32);
    }
}

/// The node above each node.
pub fn parents_of(alloc: Global, nodes: &[Node]) -> Result<Vec<Option<u32>>, OutOfMemory>
    requires { length nodes.now < 2 ^ 32 }
    ensures { IfOk result (λ parents. AreParents nodes.now parents.items) }
{
    let mut parents = none_above(alloc, nodes.len())?;
    note_all(parents.as_mut_slice(), nodes);
    Ok(parents)
}

/// The node above a node.
pub fn parent_at(parents: &[Option<u32>], nodes: &[Node], n: u32) -> Option<u32>
    requires { AreParents nodes.now parents.now }
    ensures value { result ≡ parent_of nodes.now n }
    ensures above { IfSome result (λ p. n < p) }
    ensures within { IfSome result (λ p. p < length nodes.now) }
{
    let _ = nodes;
    let at = n as usize;
    if at < parents.len() {
        parents[at]
    } else {
        None
    }
}

/// The nodes above a node, the nearest first, each with its child on the way.
pub fn above(
    alloc: Global,
    parents: &[Option<u32>],
    nodes: &[Node],
    n: u32,
) -> Result<Vec<Link>, OutOfMemory>
    requires { AreParents nodes.now parents.now }
    ensures value { IfOk result (λ links. links.items ≡ above nodes.now n) }
    ensures within { IfOk result (λ links. All (λ l. (l.node < length nodes.now) × (l.child < length nodes.now)) links.items) }
{
    let mut links = Vec::new(alloc);
    let mut at = n;
    while let Some(p) = parent_at(parents, nodes, at) {
        push(&mut links, Link { node: p, child: at })?;
        at = p;
    }
    Ok(links)
}

/// The topmost node above a node.
pub fn root_at(parents: &[Option<u32>], nodes: &[Node], n: u32) -> u32
    requires { AreParents nodes.now parents.now }
    ensures { result ≡ root_of nodes.now n }
{
    let mut at = n;
    while let Some(p) = parent_at(parents, nodes, at) {
        at = p;
    }
    at
}

// Whether a kind is one that is sought.
fn is_sought(kind: &NodeKind, sought: Sought) -> bool
    ensures { result ≡ is_sought sought kind.now }
{
    match sought {
        Sought::LoopAlone => is_loop(kind),
        Sought::SwitchAlone => is_switch(kind),
        Sought::LoopOrSwitch => is_loop(kind) || is_switch(kind),
    }
}

// Whether a node is one that is sought.
fn is_sought_at(nodes: &[Node], n: u32, sought: Sought) -> bool
    requires { n < length nodes.now }
    ensures { result ≡ is_sought sought (kind_at nodes.now n) }
{
    is_sought(&nodes[n as usize].kind, sought)
}

/// The nearest statement above a node that is sought.
pub fn nearest_at(parents: &[Option<u32>], nodes: &[Node], n: u32, sought: Sought) -> Option<u32>
    requires { AreParents nodes.now parents.now }
    ensures { result ≡ nearest nodes.now (is_sought sought) (above nodes.now n) }
{
    let mut at = n;
    while let Some(p) = parent_at(parents, nodes, at) {
        if is_sought_at(nodes, p, sought) {
            return Some(p);
        }
        at = p;
    }
    None
}

/// The innermost block in which a node stands.
pub fn block_around(parents: &[Option<u32>], nodes: &[Node], n: u32) -> Option<Block>
    requires { AreParents nodes.now parents.now }
    ensures { result ≡ slice_get (blocks_in nodes.now (above nodes.now n)) 0 }
{
    let mut at = n;
    while let Some(p) = parent_at(parents, nodes, at) {
        if opens_part(nodes, Link { node: p, child: at }) {
            return Some(Block::Part(at));
        }
        if is_block_at(nodes, p) {
            return Some(Block::Own(p));
        }
        at = p;
    }
    None
}

// The objects of blocks, in order of place.

ghost use Rattle.std.specs.Prelude.{◌≡◌, ◌<◌, ◌+◌, [], IfOk, OnOk, length, map, set, slice_index_or};
ghost use Rattle.std.specs.List.{range_with_len};
ghost use Rattle.core_tree.specs.Seen.{core_of};
ghost use Rattle.core_tree.specs.Range.{listed_by};
ghost use Rattle.ref_blocks.specs.Parents.{AreParents};
ghost use Rattle.ref_blocks.specs.Plans.{objects_to};
ghost use Rattle.ref_blocks.specs.Order.{put_in_order};
ghost use Rattle.ref_blocks.specs.Around.{literal_of, lives_with_block};
ghost use Rattle.ref_blocks.specs.declared.block.Block.TheVariants.{Own, Part};

use crate::block::Block;
use crate::order::{in_order, put_in_order};
use crate::parents::block_around;
use c_types::term::OutOfMemory;
use core_tree::trees::Trees;
use core_tree::{Entity, NodeKind, Storage};
use pta_base::Listing;
use ref_state::lists::push;
use std::alloc::Global;
use std::mem;

// The entities that a statement lists.
fn listed_by(kind: &NodeKind) -> &[u32]
    ensures { result.now ≡ listed_by kind.now }
{
    match kind {
        NodeKind::Block(entities) => entities.as_slice(),
        NodeKind::For { entities, .. } => entities.as_slice(),
        _ => &[],
    }
}

/// The objects that each node lists, in order of place.
pub fn listed_lists(alloc: Global, trees: &Trees<'_>) -> Result<Vec<Listing<u32>>, OutOfMemory>
    ensures { IfOk result (λ lists.
        lists.items ≡ map (λ n. objects_to (core_of trees.now) 0 (Own n)) (range_with_len 0 (length trees.now.nodes.now))) }
{
    let mut lists = Vec::new(alloc);
    for node in trees.nodes {
        let list = in_order(alloc, trees.entities, listed_by(&node.kind))?;
        push(&mut lists, list)?;
    }
    Ok(lists)
}

/// As many lists without objects as there are nodes.
pub fn empty_lists(alloc: Global, trees: &Trees<'_>) -> Result<Vec<Listing<u32>>, OutOfMemory>
    ensures { IfOk result (λ lists.
        lists.items ≡ map (λ n. objects_to (core_of trees.now) 0 (Part n)) (range_with_len 0 (length trees.now.nodes.now))) }
{
    let mut lists = Vec::new(alloc);
    for _ in 0..trees.nodes.len() {
        push(&mut lists, Listing::new(alloc))?;
    }
    Ok(lists)
}

// Whether objects of that storage live with their block.
fn lives_with_block(storage: Storage) -> bool
    ensures { result ≡ lives_with_block storage }
{
    matches!(storage, Storage::Automatic)
}

// The automatic object of a compound literal.
fn literal_of(trees: &Trees<'_>, kind: &NodeKind) -> Option<u32>
    ensures { result ≡ literal_of (core_of trees.now) kind.now }
{
    match kind {
        NodeKind::Literal(e) => match trees.entities.get(*e as usize) {
            Some(entity) if lives_with_block(entity.storage) => Some(*e),
            _ => None,
        },
        _ => None,
    }
}

// Puts an object into the list of that number, where there is one.
fn put_into(
    alloc: Global,
    entities: &[Entity],
    lists: &mut Vec<Listing<u32>>,
    b: u32,
    e: u32,
) -> Result<(), OutOfMemory>
    ensures { OnOk result
        (lists.new.items ≡ set lists.old.items b (put_in_order entities.now e (slice_index_or lists.old.items b []))) }
{
    let at = b as usize;
    if at < lists.len() {
        let mut list = mem::replace(&mut lists[at], Listing::new(alloc)).into_vec();
        put_in_order(entities, &mut list, e)?;
        lists[at] = Listing::of(list);
    }
    Ok(())
}

/// Puts the compound literal that a node is, if it is one, into the list of its block.
pub fn put_literal(
    alloc: Global,
    trees: &Trees<'_>,
    parents: &[Option<u32>],
    own: &mut Vec<Listing<u32>>,
    parts: &mut Vec<Listing<u32>>,
    n: u32,
) -> Result<(), OutOfMemory>
    requires parents { AreParents trees.now.nodes.now parents.now }
    requires node { n < length trees.now.nodes.now }
    requires own { own.old.items ≡ map (λ b. objects_to (core_of trees.now) n (Own b)) (range_with_len 0 (length trees.now.nodes.now)) }
    requires parts { parts.old.items
        ≡ map (λ b. objects_to (core_of trees.now) n (Part b)) (range_with_len 0 (length trees.now.nodes.now)) }
    ensures own { OnOk result
        (own.new.items ≡ map (λ b. objects_to (core_of trees.now) (n + 1) (Own b)) (range_with_len 0 (length trees.now.nodes.now))) }
    ensures parts { OnOk result
        (parts.new.items ≡ map (λ b. objects_to (core_of trees.now) (n + 1) (Part b)) (range_with_len 0 (length trees.now.nodes.now))) }
{
    let node = &trees.nodes[n as usize];
    let Some(e) = literal_of(trees, &node.kind) else {
        return Ok(());
    };
    match block_around(parents, trees.nodes, n) {
        Some(Block::Own(b)) => put_into(alloc, trees.entities, own, b, e),
        Some(Block::Part(b)) => put_into(alloc, trees.entities, parts, b, e),
        None => Ok(()),
    }
}

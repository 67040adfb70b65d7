// What entering and leaving blocks does to the memory.

ghost use Rattle.std.specs.Prelude.{◌≡◌, ◌<◌, ◌+◌, ◌++◌, [], ◌∷◌, All, IfOk, OnOk, filter, length, not, reverse, slice_get, if◌then◌else◌};
ghost use Rattle.std.specs.Option.{option_copied};
ghost use Rattle.core_tree.specs.Seen.{core_of};
ghost use Rattle.ref_blocks.specs.Plans.{IsPlan, EndsKnown, blocks_by};
ghost use Rattle.ref_blocks.specs.Around.{part_on, own_on, blocks_in, blocks_around, is_among, but_for};
ghost use Rattle.ref_blocks.specs.Blocks.{id_in, entered, left, unset_object, is_one_of, is_of, all_left, all_entered};

use crate::block::{Block, is_among};
use crate::plan::Plan;
use crate::ways::{Link, is_block_at, opens_part};
use c_types::key::ObjectKey;
use c_types::term::{OutOfMemory, TypeId};
use core_tree::trees::Trees;
use core_tree::{Entity, Node};
use pta_base::Listing;
use ref_cells::cells::Cells;
use ref_cells::instance::Instance;
use ref_mem::memory::Memory;
use ref_state::doors::Doors;
use ref_state::lists::push;
use std::alloc::Global;
use std::mem;

// The number of the type of an object.
fn id_of(entities: &[Entity], e: u32) -> Option<TypeId>
    ensures { result ≡ id_in (slice_get entities.now e) }
{
    match entities.get(e as usize) {
        Some(entity) => Some(entity.ty),
        None => None,
    }
}

/// An object of which nothing is set.
pub fn unset_object(alloc: Global, trees: &Trees<'_>, e: u32) -> Instance
    ensures { result ≡ unset_object (core_of trees.now) e }
{
    Instance {
        key: ObjectKey::Entity(e),
        live: true,
        ty: id_of(trees.entities, e),
        bytes: 0,
        zero: false,
        cells: Cells::none(alloc),
    }
}

// Makes an object of a block.
fn make_object(
    alloc: Global,
    trees: &Trees<'_>,
    memory: &Memory,
    doors: &mut Doors,
    e: u32,
) -> Result<(), OutOfMemory>
    ensures own { OnOk result (doors.new.own ≡ doors.old.own ++ (length memory.now + length doors.old.fresh) ∷ []) }
    ensures fresh { OnOk result (doors.new.fresh ≡ doors.old.fresh ++ unset_object (core_of trees.now) e ∷ []) }
    ensures ended { OnOk result (doors.new.ended ≡ doors.old.ended) }
{
    let number = memory.instances().len().saturating_add(doors.fresh.len());
    if number >= u32::MAX as usize {
        return Err(OutOfMemory);
    }
    doors.own.push(number as u32)?;
    doors.fresh.push(unset_object(alloc, trees, e))?;
    Ok(())
}

/// Makes the objects of a block.
pub fn enter(
    alloc: Global,
    trees: &Trees<'_>,
    plan: &Plan,
    memory: &Memory,
    doors: &mut Doors,
    block: Block,
) -> Result<(), OutOfMemory>
    requires plan { IsPlan (core_of trees.now) plan.now }
    requires ended { EndsKnown memory.now doors.old }
    ensures ended { OnOk result (EndsKnown memory.now doors.new) }
    ensures blocks { OnOk result
        (blocks_by memory.now doors.new ≡ entered (core_of trees.now) block (blocks_by memory.now doors.old)) }
{
    let objects = plan.objects_of(trees, block);
    for e in objects {
        make_object(alloc, trees, memory, doors, *e)?;
    }
    Ok(())
}

// The instance at a place of a list.
fn get_at(list: &[Instance], at: usize) -> Option<&Instance>
    ensures { option_copied result ≡ slice_get list.now at }
{
    list.get(at)
}

// An instance of the memory, or one that is to be made.
fn instance_at<'a>(memory: &'a Memory, fresh: &'a [Instance], i: u32) -> Option<&'a Instance>
    ensures { option_copied result ≡ slice_get (memory.now ++ fresh.now) i }
{
    let count = memory.instances().len();
    let at = i as usize;
    if at < count {
        get_at(memory.instances(), at)
    } else {
        get_at(fresh, at - count)
    }
}

// Whether a key is that of one of these objects.
fn is_one_of(objects: &[u32], key: &ObjectKey) -> bool
    ensures { result ≡ is_one_of objects.now key.now }
{
    match key {
        ObjectKey::Entity(e) => objects.contains(e),
        _ => false,
    }
}

// Whether an instance is of one of these objects.
fn is_of(memory: &Memory, fresh: &[Instance], objects: &[u32], i: u32) -> bool
    ensures { result ≡ is_of objects.now (slice_get (memory.now ++ fresh.now) i) }
{
    match instance_at(memory, fresh, i) {
        Some(inst) => is_one_of(objects, &inst.key),
        None => false,
    }
}

// An instance is put to those that end, or to those that stay.
fn part_one(
    ended: &mut Listing<u32>,
    kept: &mut Listing<u32>,
    i: u32,
    ends: bool,
) -> Result<(), OutOfMemory>
    ensures kept { OnOk result (kept.new ≡ kept.old ++ (if ends then [] else i ∷ [])) }
    ensures ended { OnOk result (ended.new ≡ ended.old ++ (if ends then i ∷ [] else [])) }
{
    if ends {
        ended.push(i)?;
    } else {
        kept.push(i)?;
    }
    Ok(())
}

// Those of a frame's instances that aren't of these objects stay; the others are put to those that end.
fn parted(
    alloc: Global,
    memory: &Memory,
    fresh: &[Instance],
    objects: &[u32],
    own: &[u32],
    ended: &mut Listing<u32>,
) -> Result<Listing<u32>, OutOfMemory>
    ensures own { IfOk result (λ kept. kept ≡ filter (λ i. not (is_of objects.now (slice_get (memory.now ++ fresh.now) i))) own.now) }
    ensures ended { OnOk result
        (ended.new ≡ ended.old ++ filter (λ i. is_of objects.now (slice_get (memory.now ++ fresh.now) i)) own.now) }
{
    let mut kept = Listing::new(alloc);
    for i in own {
        let ends = is_of(memory, fresh, objects, *i);
        part_one(ended, &mut kept, *i, ends)?;
    }
    Ok(kept)
}

/// Ends the objects of a block.
pub fn leave(
    alloc: Global,
    trees: &Trees<'_>,
    plan: &Plan,
    memory: &Memory,
    doors: &mut Doors,
    block: Block,
) -> Result<(), OutOfMemory>
    requires plan { IsPlan (core_of trees.now) plan.now }
    requires ended { EndsKnown memory.now doors.old }
    ensures ended { OnOk result (EndsKnown memory.now doors.new) }
    ensures blocks { OnOk result
        (blocks_by memory.now doors.new ≡ left (core_of trees.now) block (blocks_by memory.now doors.old)) }
{
    let objects = plan.objects_of(trees, block);
    let mut ended = mem::replace(&mut doors.ended, Listing::new(alloc));
    let own = mem::replace(&mut doors.own, Listing::new(alloc));
    let kept = parted(
        alloc,
        memory,
        doors.fresh.as_slice(),
        objects,
        own.as_slice(),
        &mut ended,
    )?;
    doors.own = kept;
    doors.ended = ended;
    Ok(())
}

// Leaves a block, if it isn't among others.
fn leave_unless(
    alloc: Global,
    trees: &Trees<'_>,
    plan: &Plan,
    memory: &Memory,
    doors: &mut Doors,
    block: Block,
    others: &[Block],
) -> Result<(), OutOfMemory>
    requires plan { IsPlan (core_of trees.now) plan.now }
    requires ended { EndsKnown memory.now doors.old }
    ensures ended { OnOk result (EndsKnown memory.now doors.new) }
    ensures blocks { OnOk result
        (blocks_by memory.now doors.new
        ≡ (if is_among others.now block then blocks_by memory.now doors.old
        else left (core_of trees.now) block (blocks_by memory.now doors.old))) }
{
    if is_among(others, block) {
        return Ok(());
    }
    leave(alloc, trees, plan, memory, doors, block)
}

/// Leaves those of the blocks that aren't among others, one after another.
pub fn leave_others(
    alloc: Global,
    trees: &Trees<'_>,
    plan: &Plan,
    memory: &Memory,
    doors: &mut Doors,
    blocks: &[Block],
    others: &[Block],
) -> Result<(), OutOfMemory>
    requires plan { IsPlan (core_of trees.now) plan.now }
    requires ended { EndsKnown memory.now doors.old }
    ensures ended { OnOk result (EndsKnown memory.now doors.new) }
    ensures blocks { OnOk result
        (blocks_by memory.now doors.new
        ≡ all_left (core_of trees.now) (but_for blocks.now others.now) (blocks_by memory.now doors.old)) }
{
    for block in blocks {
        leave_unless(alloc, trees, plan, memory, doors, *block, others)?;
    }
    Ok(())
}

// Lists a block, if it isn't among others.
fn push_unless(list: &mut Vec<Block>, block: Block, others: &[Block]) -> Result<(), OutOfMemory>
    ensures { OnOk result (list.new.items ≡ list.old.items ++ (if is_among others.now block then [] else block ∷ [])) }
{
    if is_among(others, block) {
        return Ok(());
    }
    push(list, block)
}

// Those of the blocks that aren't among others.
fn but_for(alloc: Global, blocks: &[Block], others: &[Block]) -> Result<Vec<Block>, OutOfMemory>
    ensures { IfOk result (λ rest. rest.items ≡ but_for blocks.now others.now) }
{
    let mut rest = Vec::new(alloc);
    for block in blocks {
        push_unless(&mut rest, *block, others)?;
    }
    Ok(rest)
}

// Enters these blocks, the last one first.
fn enter_all(
    alloc: Global,
    trees: &Trees<'_>,
    plan: &Plan,
    memory: &Memory,
    doors: &mut Doors,
    blocks: &[Block],
) -> Result<(), OutOfMemory>
    requires plan { IsPlan (core_of trees.now) plan.now }
    requires ended { EndsKnown memory.now doors.old }
    ensures ended { OnOk result (EndsKnown memory.now doors.new) }
    ensures blocks { OnOk result
        (blocks_by memory.now doors.new
        ≡ all_entered (core_of trees.now) (reverse blocks.now) (blocks_by memory.now doors.old)) }
{
    let mut i = blocks.len();
    while i > 0 {
        i -= 1;
        enter(alloc, trees, plan, memory, doors, blocks[i])?;
    }
    Ok(())
}

/// Enters those of the blocks that aren't among others, the last one first.
pub fn enter_others(
    alloc: Global,
    trees: &Trees<'_>,
    plan: &Plan,
    memory: &Memory,
    doors: &mut Doors,
    blocks: &[Block],
    others: &[Block],
) -> Result<(), OutOfMemory>
    requires plan { IsPlan (core_of trees.now) plan.now }
    requires ended { EndsKnown memory.now doors.old }
    ensures ended { OnOk result (EndsKnown memory.now doors.new) }
    ensures blocks { OnOk result
        (blocks_by memory.now doors.new
        ≡ all_entered (core_of trees.now) (reverse (but_for blocks.now others.now)) (blocks_by memory.now doors.old)) }
{
    let rest = but_for(alloc, blocks, others)?;
    enter_all(alloc, trees, plan, memory, doors, rest.as_slice())
}

// Puts the block of a branch or body at a link behind those that are listed.
fn push_part(blocks: &mut Vec<Block>, nodes: &[Node], link: Link) -> Result<(), OutOfMemory>
    requires node { link.node < length nodes.now }
    requires child { link.child < length nodes.now }
    ensures { IfOk result (λ _. blocks.new.items ≡ blocks.old.items ++ part_on nodes.now link) }
{
    if opens_part(nodes, link) {
        push(blocks, Block::Part(link.child))
    } else {
        Ok(())
    }
}

/// Puts the block of a statement at a link behind those that are listed.
pub(crate) fn push_own(
    blocks: &mut Vec<Block>,
    nodes: &[Node],
    link: Link,
) -> Result<(), OutOfMemory>
    requires { link.node < length nodes.now }
    ensures { IfOk result (λ _. blocks.new.items ≡ blocks.old.items ++ own_on nodes.now link) }
{
    if is_block_at(nodes, link.node) {
        push(blocks, Block::Own(link.node))
    } else {
        Ok(())
    }
}

/// The blocks on a way up, the innermost first.
pub fn blocks_on(alloc: Global, nodes: &[Node], links: &[Link]) -> Result<Vec<Block>, OutOfMemory>
    requires { All (λ l. (l.node < length nodes.now) × (l.child < length nodes.now)) links.now }
    ensures { IfOk result (λ blocks. blocks.items ≡ blocks_in nodes.now links.now) }
{
    let mut blocks = Vec::new(alloc);
    for link in links {
        push_part(&mut blocks, nodes, *link)?;
        push_own(&mut blocks, nodes, *link)?;
    }
    Ok(blocks)
}

/// The blocks in which a node stands, the innermost first.
pub fn blocks_around(
    alloc: Global,
    trees: &Trees<'_>,
    plan: &Plan,
    n: u32,
) -> Result<Vec<Block>, OutOfMemory>
    requires { IsPlan (core_of trees.now) plan.now }
    ensures { IfOk result (λ blocks. blocks.items ≡ blocks_around (core_of trees.now) n) }
{
    let links = plan.above(alloc, trees, n)?;
    blocks_on(alloc, trees.nodes, links.as_slice())
}

// Whether all that a tree names is told, before it is carried.
ghost use Rattle.std.specs.Prelude.{◌<◌, length, IfOk, IsOkUnless, MatchBool};
ghost use Rattle.core_nodes.specs.Standing.{core_at, IsReady};
ghost use Rattle.tree_reads.specs.leaf_maps.Numbers.{number_at};
ghost use Rattle.carried_trees.specs.carried_types.Told.{AreMarks};
ghost use Rattle.carried_trees.specs.Told.{IsUntold};

use crate::carried_types::are_parts_told;
use crate::carrying::{add_types, carry};
use c_types::table::TypeTable;
use c_types::term::Term;
use core_nodes::CheckFault;
use core_nodes::kept_nodes::keep_under;
use core_tree::node::Unit;
use pta_base::Text;
use std::alloc::Global;
use tree_reads::leaf_maps::LeafMap;

// A unit of one type, and of nothing else.
fn scratch_unit(alloc: Global) -> Result<Unit, CheckFault>
    ensures ready { IfOk result IsReady }
    ensures one { IfOk result (λ unit. 0 < length unit.types.terms) }
    ensures memory { IsOkUnless result CheckFault.OutOfMemory }
{
    let mut types = TypeTable::new(alloc);
    let Ok(_void) = types.add(Term::Void) else {
        return Err(CheckFault::OutOfMemory);
    };
    Ok(Unit {
        name: Text::of(String::new(alloc)),
        types,
        tags: Vec::new(alloc),
        nodes: Vec::new(alloc),
        entities: Vec::new(alloc),
    })
}

// Whether the tree of a node of a unit is told, by carrying it into a unit of one type.
fn told_in(
    alloc: Global,
    scratch: &mut Unit,
    walked: &mut Unit,
    top: u32,
    entities: &LeafMap,
    marks: &[Option<u32>],
    incomplete: &[bool],
) -> Result<bool, CheckFault>
    requires scratch { IsReady scratch.old }
    requires one { 0 < length scratch.old.types.terms }
    requires walked { IsReady walked.old }
    requires top { top < length walked.old.nodes.items }
    requires marks { AreMarks marks.now }
    ensures told { let untold = IsUntold (number_at entities.now) marks.now incomplete.now (core_at walked.old top) walked.old.types in
        IfOk result (λ told. MatchBool told (untold → ⊥) untold) }
    ensures memory { IsOkUnless result CheckFault.OutOfMemory }
{
    let node = keep_under(alloc, walked, 0, top)?;

    // (What every table keeps is told by its count.)
    let _count = walked.types.type_count();
    let types = add_types(alloc, scratch, &walked.types, marks)?;
    if !are_parts_told(&walked.types, types.given.as_slice(), incomplete) {
        return Ok(false);
    }
    let found = carry(alloc, scratch, walked, node, entities, &types)?;
    match found {
        Some(_tree) => Ok(true),
        None => Ok(false),
    }
}

/// Whether `carry_whole` can carry the tree of a node of a unit: false exactly where an entity that it names has no number in the map, a
/// tag in its types has no mark, or a member of an incomplete tag has a type with a tag without one, and where the tree lists objects as a
/// statement does, or holds an initialiser of no compound literal in it. The mark of a tag is 0, and None where it has no type in the other
/// unit; it is incomplete where it has a type there, but no members. Only memory may want. The unit is only fit to be dropped then. It takes
/// the time and the memory of carrying the tree.
pub fn is_tree_told(
    alloc: Global,
    walked: &mut Unit,
    top: u32,
    entities: &LeafMap,
    marks: &[Option<u32>],
    incomplete: &[bool],
) -> Result<bool, CheckFault>
    requires walked { IsReady walked.old }
    requires top { top < length walked.old.nodes.items }
    requires marks { AreMarks marks.now }
    ensures told { let untold = IsUntold (number_at entities.now) marks.now incomplete.now (core_at walked.old top) walked.old.types in
        IfOk result (λ told. MatchBool told (untold → ⊥) untold) }
    ensures memory { IsOkUnless result CheckFault.OutOfMemory }
{
    let mut scratch = scratch_unit(alloc)?;
    told_in(
        alloc,
        &mut scratch,
        walked,
        top,
        entities,
        marks,
        incomplete,
    )
}

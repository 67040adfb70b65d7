//! The member lists in the table.

ghost use Rattle.std.specs.Prelude.{◌≡◌, ◌<◌, ◌≤◌, ◌+◌, ◌^◌, ℕ, [], IfOk, OnOk, IsSome, length, map, All, slice_index};
ghost use Rattle.c_types.specs.Table.{members_in};
ghost use Rattle.link_model.specs.link_types.Joined.{AreStarts, tag_in};
ghost use Rattle.link_model.specs.link_types.Moved.{HasTypes};
ghost use Rattle.link_merge.specs.Classes.{AreShown};
ghost use Rattle.link_merge.specs.Complete.{moved_member, IsCompleted, AreDone, AreListed};

use c_types::table::TypeTable;
use c_types::term::{MemberTerm, Name, TypeId};
use core_tree::Unit;
use pta_base::OutOfMemory;
use std::alloc::Global;

// The name of a member.
fn copied_name(alloc: Global, name: &Option<Name>) -> Result<Option<Name>, OutOfMemory>
    ensures { IfOk result (λ copy. copy ≡ name.now) }
{
    match name {
        Some(name) => {
            let text = name.as_str().to_string(alloc)?;
            Ok(Some(Name::from_text(text)))
        }
        None => Ok(None),
    }
}

// A unit's members, with the types of the table, where the unit's types begin at that number.
fn moved_members(
    alloc: Global,
    members: &[MemberTerm],
    start: u32,
) -> Result<Vec<MemberTerm>, OutOfMemory>
    requires { All (λ m. start + m.ty.0 < 2 ^ 32) members.now }
    ensures { IfOk result (λ list. list.items ≡ map (moved_member start) members.now) }
{
    let mut list = Vec::new(alloc);
    for member in members {
        list.push(MemberTerm {
            name: copied_name(alloc, &member.name)?,
            ty: TypeId(start + member.ty.0),
            bits: member.bits,
        })?;
    }
    Ok(list)
}

// Gives the tag of the table that a unit's tag is that tag's list, where it has none yet.
fn complete_tag(
    alloc: Global,
    types: &mut TypeTable,
    unit: &TypeTable,
    start: u32,
    tags: &[u32],
    position: u32,
) -> Result<(), OutOfMemory>
    requires position { position < length unit.now.completed }
    requires tags { unit.now.tags ≡ length tags.now }
    requires known { All (λ k. k < types.old.tags) tags.now }
    requires within { start + length unit.now.terms ≤ length types.old.terms }
    requires shown { HasTypes types.old unit.now start (λ k. slice_index tags.now k) (length unit.now.terms) }
    requires before { AreDone types.old unit.now (λ k. slice_index tags.now k) position }
    ensures completed { OnOk result (IsCompleted types.old types.new unit.now start (λ k. slice_index tags.now k)) }
    ensures done { OnOk result (AreDone types.new unit.now (λ k. slice_index tags.now k) (position + 1)) }
{
    let _count = types.type_count();
    let _own = unit.type_count();
    let tag = unit.completed_tag(position);
    let place = tags[tag as usize];
    if types.members(place).is_some() {
        return Ok(());
    }
    let Some(members) = unit.members(tag) else {
        unreachable!()
    };
    let moved = moved_members(alloc, members, start)?;
    match types.complete(place, moved) {
        Ok(()) => Ok(()),
        Err(_) => Err(OutOfMemory),
    }
}

// Completes the tags that a unit completes, in its order, where they aren't complete.
fn complete_unit(
    alloc: Global,
    types: &mut TypeTable,
    unit: &TypeTable,
    start: u32,
    tags: &[u32],
) -> Result<(), OutOfMemory>
    requires tags { unit.now.tags ≡ length tags.now }
    requires known { All (λ k. k < types.old.tags) tags.now }
    requires within { start + length unit.now.terms ≤ length types.old.terms }
    requires shown { HasTypes types.old unit.now start (λ k. slice_index tags.now k) (length unit.now.terms) }
    ensures completed { OnOk result (IsCompleted types.old types.new unit.now start (λ k. slice_index tags.now k)) }
    ensures all { OnOk result ((own : ℕ) → IsSome (members_in unit.now own) → IsSome (members_in types.new (slice_index tags.now own))) }
{
    for position in 0..unit.completed_count() {
        complete_tag(alloc, types, unit, start, tags, position)?;
    }
    Ok(())
}

/// Completes the tags of a table that has the types of all units, from the units' lists, in order: each tag gets the
/// list of the first tag of its number that has one.
pub fn complete_all(
    alloc: Global,
    types: &mut TypeTable,
    units: &[Unit],
    type_starts: &[u32],
    tag_starts: &[u32],
    numbers: &[u32],
) -> Result<(), OutOfMemory>
    requires starts { AreStarts units.now tag_starts.now (length numbers.now) }
    requires known { All (λ k. k < types.old.tags) numbers.now }
    requires shown { AreShown units.now type_starts.now (tag_in tag_starts.now numbers.now) types.old }
    requires completed { types.old.completed ≡ [] }
    ensures terms { OnOk result (types.new.terms ≡ types.old.terms) }
    ensures tags { OnOk result (types.new.tags ≡ types.old.tags) }
    ensures listed { OnOk result (AreListed units.now type_starts.now (tag_in tag_starts.now numbers.now) types.new (length units.now)) }
{
    for (u, unit) in units.iter().enumerate() {
        let tags = &numbers[tag_starts[u] as usize..tag_starts[u + 1] as usize];
        complete_unit(alloc, types, &unit.types, type_starts[u], tags)?;
    }
    Ok(())
}

// Members of the tags of one table in another.
ghost use Rattle.std.specs.Prelude.{◌≡◌, ◌<◌, ◌+◌, true, false, None, Some, length, map, get_or, All, IfOk, IfSome};
ghost use Rattle.c_types.specs.Table.{type_of};
ghost use Rattle.carried_trees.specs.carried_types.Terms.{AreTagIds, AreTypes, tag_type};
ghost use Rattle.carried_trees.specs.carried_types.Members.{AreTagged, AreAdded, AreDone, AreComplete, HaveKeyword, Lacks};
ghost use Rattle.carried_trees.specs.carried_types.Members.{are_flagged, moved_member, tag_named};

use crate::carried_types::types::CarriedTypes;
use c_types::table::TypeTable;
use c_types::term::{MemberTerm, Name, Term, TypeId};
use pta_base::OutOfMemory;
use std::alloc::Global;

// The name of a member.
fn copied_name(alloc: Global, name: &Option<Name>) -> Result<Option<Name>, OutOfMemory>
    ensures { IfOk result (λ copy. copy ≡ name.now) }
{
    match name {
        Some(name) => {
            let text = name.as_str().to_string(alloc)?;
            Ok(Some(Name::from_text(text)))
        }
        None => Ok(None),
    }
}

// Members under the numbers of their types there.
fn moved_members(
    alloc: Global,
    members: &[MemberTerm],
    ids: &[u32],
) -> Result<Vec<MemberTerm>, OutOfMemory>
    requires { All (λ m. m.ty.0 < length ids.now) members.now }
    ensures { IfOk result (λ list. list.items ≡ map (moved_member ids.now) members.now) }
{
    let mut list = Vec::new(alloc);
    for member in members {
        list.push(MemberTerm {
            name: copied_name(alloc, &member.name)?,
            ty: TypeId(ids[member.ty.0 as usize]),
            bits: member.bits,
        })?;
    }
    Ok(list)
}

/// Whether the types of members are given.
pub(in crate::carried_types) fn are_flagged(given: &[bool], members: &[MemberTerm]) -> bool
    requires { All (λ m. m.ty.0 < length given.now) members.now }
    ensures { result ≡ are_flagged given.now members.now }
{
    for member in members {
        if !given[member.ty.0 as usize] {
            return false;
        }
    }
    true
}

// The number of the type of a tag.
fn id_at(tags: &[Option<u32>], tag: u32) -> Option<u32>
    ensures { result ≡ get_or tags.now tag None }
{
    match tags.get(tag as usize) {
        Some(there) => *there,
        None => None,
    }
}

// The tag that a type there names, where the tag here has the same keyword.
fn tag_as(types: &TypeTable, id: u32, walked: &TypeTable, tag: u32) -> Option<u32>
    requires { id < length types.now.terms }
    ensures named { IfSome result (λ number. tag_named (type_of types.now id) ≡ Some number) }
    ensures keyword { IfSome result (λ number. HaveKeyword types.now.terms id number walked.now.terms tag) }
    ensures within { IfSome result (λ number. number < types.now.tags) }
{
    if tag >= walked.type_count() {
        return None;
    }
    match (types.term(TypeId(id)), walked.term(TypeId(tag))) {
        (Term::Structure(number), Term::Structure(own)) if *own == tag => Some(*number),
        (Term::Union(number), Term::Union(own)) if *own == tag => Some(*number),
        _ => None,
    }
}

// Gives the tag there that is one here the members of that one, where it has a number there and no members yet: false where a member's
// type isn't given. A tag with another keyword there counts as want of memory.
fn complete_tag(
    alloc: Global,
    types: &mut TypeTable,
    walked: &TypeTable,
    tags: &[Option<u32>],
    carried: &CarriedTypes,
    position: u32,
) -> Result<bool, OutOfMemory>
    requires position { position < length walked.now.completed }
    requires ids { AreTagIds tags.now types.old }
    requires tagged { AreTagged (tag_type types.old tags.now) }
    requires carried { AreTypes (tag_type types.old tags.now) walked.now (length walked.now.terms) carried.now.ids.items
        carried.now.given.items types.old }
    requires done { AreDone (tag_type types.old tags.now) walked.now types.old position }
    ensures added { AreAdded (tag_type types.old tags.now) walked.now types.old types.new }
    ensures done { IfOk result (λ ok. ok ≡ true → AreDone (tag_type types.old tags.now) walked.now types.new (position + 1)) }
    ensures lacks { IfOk result (λ ok. ok ≡ false → Lacks (tag_type types.old tags.now) walked.now types.old) }
{
    let _count = types.type_count();
    let _own = walked.type_count();
    let tag = walked.completed_tag(position);
    let Some(id) = id_at(tags, tag) else {
        return Ok(true);
    };
    let Some(number) = tag_as(types, id, walked, tag) else {
        return Err(OutOfMemory);
    };
    if types.members(number).is_some() {
        return Ok(true);
    }
    let Some(members) = walked.members(tag) else {
        unreachable!()
    };
    if !are_flagged(carried.given.as_slice(), members) {
        return Ok(false);
    }
    let moved = moved_members(alloc, members, carried.ids.as_slice())?;
    match types.complete(number, moved) {
        Ok(()) => Ok(true),
        Err(_) => Err(OutOfMemory),
    }
}

/// Gives each tag of a table that has a type in another one its members there, with their types carried, where it has none there yet:
/// in the order in which the tags were completed. False where a member of one of these has a type that isn't given; then, as after want
/// of memory, tags before it may have theirs. A tag whose keyword differs there counts as want of memory.
pub fn complete_tags(
    alloc: Global,
    types: &mut TypeTable,
    walked: &TypeTable,
    tags: &[Option<u32>],
    carried: &CarriedTypes,
) -> Result<bool, OutOfMemory>
    requires ids { AreTagIds tags.now types.old }
    requires tagged { AreTagged (tag_type types.old tags.now) }
    requires carried { AreTypes (tag_type types.old tags.now) walked.now (length walked.now.terms) carried.now.ids.items
        carried.now.given.items types.old }
    ensures added { AreAdded (tag_type types.old tags.now) walked.now types.old types.new }
    ensures complete { IfOk result (λ ok. ok ≡ true → AreComplete (tag_type types.old tags.now) walked.now types.new) }
    ensures lacks { IfOk result (λ ok. ok ≡ false → Lacks (tag_type types.old tags.now) walked.now types.old) }
{
    for position in 0..walked.completed_count() {
        if !complete_tag(alloc, types, walked, tags, carried, position)? {
            return Ok(false);
        }
    }
    Ok(true)
}

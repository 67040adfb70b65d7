//! The way to a member by its name (C11 6.5.2.3, 6.7.2.1p13).
ghost use Rattle.std.specs.Prelude.{◌≡◌, ◌+◌, ◌<◌, ◌++◌, ◌∷◌, [], All, IfOk, OnOk, List, MatchOption, length, map, position, reverse, ℕ};
ghost use Rattle.c_types.specs.Table.{type_of};
ghost use Rattle.c_senses.specs.World.{World, has_name, in_unnamed as in_unnamed_parts, way_within as way_of_depth};
ghost use Rattle.c_senses.specs.World as spec;
ghost use Rattle.c_operators.specs.c_members.Worlds.{IsWorldOf, part_of};
ghost use Rattle.c_operators.specs.c_members.Ways.{IsWay};

use crate::c_members::members::members_of;
use c_types::table::TypeTable;
use c_types::term::{MemberTerm, TypeId};
use std::alloc::{AllocError, Global};

/// Whether a member has a name, and that one.
fn is_named(member: &MemberTerm, name: &[u8]) -> bool
    ensures { result ≡ has_name name.now member.now.name }
{
    match &member.name {
        Some(own) => own.as_str().as_bytes() == name,
        None => false,
    }
}

/// The position of the first member of that name.
fn own_position(members: &[MemberTerm], name: &[u8]) -> Option<usize>
    ensures { result ≡ position (λ m. has_name name.now m.name) members.now }
{
    members.iter().position(|member| is_named(member, name))
}

/// One position more behind a way.
fn push_step(way: &mut Vec<u32>, position: usize) -> Result<(), AllocError>
    ensures { OnOk result (way.new.items ≡ way.old.items ++ position ∷ []) }
{
    match u32::try_from(position) {
        Ok(k) => {
            way.push(k)?;
            Ok(())
        }
        Err(_) => Err(AllocError),
    }
}

/// The way of one position.
fn one_step(alloc: Global, position: usize) -> Result<Vec<u32>, AllocError>
    ensures { IfOk result (λ way. way.items ≡ position ∷ []) }
{
    let mut way = Vec::new(alloc);
    push_step(&mut way, position)?;
    Ok(way)
}

/// The way to a member within so many levels, from its last position to its first.
#[cycle(ways)]
fn way_within(
    alloc: Global,
    types: &TypeTable,
    whole: TypeId,
    name: &[u8],
    depth: u64,
) -> Result<Option<Vec<u32>>, AllocError>
    requires { whole.0 < length types.now.terms }
    ensures { IfOk result (λ found. (w : World) →
        IsWorldOf w types.now →
        MatchOption found (way_of_depth w depth name.now (type_of types.now whole.0) ≡ None)
        (λ way. way_of_depth w depth name.now (type_of types.now whole.0) ≡ Some (reverse way.items))) }
{
    if depth == 0 {
        return Ok(None);
    }
    match members_of(types, whole) {
        Some(members) => match own_position(members, name) {
            Some(position) => Ok(Some(one_step(alloc, position)?)),
            None => way_in_unnamed(alloc, types, members, name, depth - 1),
        },
        None => Ok(None),
    }
}

/// The way through the unnamed members of a list, each one whole before the next.
#[cycle(ways)]
fn way_in_unnamed(
    alloc: Global,
    types: &TypeTable,
    members: &[MemberTerm],
    name: &[u8],
    depth: u64,
) -> Result<Option<Vec<u32>>, AllocError>
    requires { All (λ m. m.ty.0 < length types.now.terms) members.now }
    ensures { IfOk result (λ found. (w : World) →
        IsWorldOf w types.now →
        MatchOption found
        (in_unnamed_parts (way_of_depth w depth name.now) 0 (map (part_of types.now) members.now) ≡ None)
        (λ way. in_unnamed_parts (way_of_depth w depth name.now) 0 (map (part_of types.now) members.now) ≡ Some (reverse way.items))) }
{
    for (position, member) in members.iter().enumerate() {
        if member.name.is_none() {
            if let Some(mut way) = way_within(alloc, types, member.ty, name, depth)? {
                push_step(&mut way, position)?;
                return Ok(Some(way));
            }
        }
    }
    Ok(None)
}

/// The positions of the members on the way from a structure or union to the member of a name, one for each level (C11 6.5.2.3,
/// 6.7.2.1p13); None exactly where the type is no complete structure or union or there is no such member. A list's own names come
/// first, then its unnamed members in order, each one whole before the next. Memory is taken for the way alone; a position of 2^32
/// or more counts as want of memory.
pub fn way_to(
    alloc: Global,
    types: &TypeTable,
    whole: TypeId,
    name: &[u8],
) -> Result<Option<Vec<u32>>, AllocError>
    requires { whole.0 < length types.now.terms }
    ensures way { IfOk result (λ found. (w : World) →
        IsWorldOf w types.now →
        MatchOption found (spec.way_to w name.now (type_of types.now whole.0) ≡ None)
        (λ way. spec.way_to w name.now (type_of types.now whole.0) ≡ Some way.items)) }

    // So what is found is a way to a member of that name, and where nothing is found there is none.
    ensures member { IfOk result (λ found. (w : World) →
        IsWorldOf w types.now →
        MatchOption found ((other : List ℕ) → IsWay w name.now (type_of types.now whole.0) other → ⊥)
        (λ way. IsWay w name.now (type_of types.now whole.0) way.items)) }
{
    let _count = types.type_count();
    let depth = u64::from(types.tag_count()) + 1;
    match way_within(alloc, types, whole, name, depth)? {
        Some(mut way) => {
            way.reverse();
            Ok(Some(way))
        }
        None => Ok(None),
    }
}

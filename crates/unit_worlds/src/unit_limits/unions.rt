// Which tags have a structure that ends in an array without a length, or a union that has one.
ghost use Rattle.std.specs.Prelude.{◌≡◌, ◌<◌, ℕ, [], false, length, map, All, get_or, Some, IfOk};
ghost use Rattle.c_types.specs.Table.{type_of};
ghost use Rattle.c_inits.specs.Tables.{part_of};
ghost use Rattle.c_senses.specs.Limits as limits;
ghost use Rattle.c_senses.specs.Limits.{some_flexible};
ghost use Rattle.unit_worlds.specs.unit_limits.Small.{tag_in};
ghost use Rattle.unit_worlds.specs.unit_limits.Unions as spec;
ghost use Rattle.unit_worlds.specs.unit_limits.Unions.{AreUnions, IsNoted, members_at};

use c_types::table::TypeTable;
use c_types::term::{MemberTerm, OutOfMemory, Term, TypeId};
use core_tree::node::Unit;
use std::alloc::Global;

// Whether a type is an array without a length.
fn lacks_length(types: &TypeTable, ty: TypeId) -> bool
    requires { ty.0 < length types.now.terms }
    ensures { result ≡ limits.lacks_a_length (type_of types.now ty.0) }
{
    match types.term(ty) {
        Term::Array { length: None, .. } => true,
        _ => false,
    }
}

// Whether the last of some members is an array without a length.
fn last_lacks_length(types: &TypeTable, members: &[MemberTerm]) -> bool
    requires { All (λ m. m.ty.0 < length types.now.terms) members.now }
    ensures { result ≡ limits.last_lacks_length (map (part_of types.now) members.now) }
{
    match members.last() {
        Some(member) => lacks_length(types, member.ty),
        None => false,
    }
}

// The flag of a tag.
fn flag_of(unions: &[bool], tag: u32) -> bool
    ensures { result ≡ get_or unions.now tag false }
{
    match unions.get(tag as usize) {
        Some(flag) => *flag,
        None => false,
    }
}

// Whether a type is a structure that ends in an array without a length, or a union that has one.
fn is_open(types: &TypeTable, unions: &[bool], ty: TypeId) -> bool
    requires { ty.0 < length types.now.terms }
    ensures { result ≡ spec.is_open (members_at types.now) unions.now (type_of types.now ty.0) }
{
    match types.term(ty) {
        Term::Structure(tag) => match types.members(*tag) {
            Some(members) => last_lacks_length(types, members),
            None => false,
        },
        Term::Union(tag) => flag_of(unions, *tag),
        _ => false,
    }
}

// Whether one of some members is such.
fn some_open(types: &TypeTable, unions: &[bool], members: &[MemberTerm]) -> bool
    requires { All (λ m. m.ty.0 < length types.now.terms) members.now }
    ensures { result ≡ some_flexible (spec.is_open (members_at types.now) unions.now) (map (part_of types.now) members.now) }
{
    for member in members {
        if is_open(types, unions, member.ty) {
            return true;
        }
    }
    false
}

/// Whether a tag has as a member a structure that ends in an array without a length, or a union that has one by the flags (C11 6.7.2.1p3).
/// It takes a step for each member.
pub fn has_open(types: &TypeTable, unions: &[bool], tag: u32) -> bool
    requires { tag < types.now.tags }
    ensures { result ≡ spec.has_open (members_at types.now) unions.now tag }
{
    match types.members(tag) {
        Some(members) => some_open(types, unions, members),
        None => false,
    }
}

/// Flags for the tags of a table in which none is complete. Only memory may want.
pub fn open_flags(alloc: Global, types: &TypeTable) -> Result<Vec<bool>, OutOfMemory>
    requires { types.now.completed ≡ [] }
    ensures { IfOk result (λ unions. AreUnions types.now unions.items) }
{
    let unions = vec![in alloc; false; types.tag_count() as usize]?;
    Ok(unions)
}

// Notes of a tag whether it has such a member.
fn note_tag(types: &TypeTable, unions: &mut Vec<bool>, tag: u32)
    requires tag { tag < types.now.tags }
    requires long { length unions.old.items ≡ types.now.tags }
    ensures { IsNoted types.now unions.old.items unions.new.items tag }
{
    let open = has_open(types, unions.as_slice(), tag);
    unions[tag as usize] = open;
}

/// Notes of the structure or union of a type whether it has as a member a structure that ends in an array without a length, or a union that
/// has one (C11 6.7.2.1p3). It takes a step for each member.
pub(in crate::unit_limits) fn note_type(unit: &Unit, unions: &mut Vec<bool>, ty: TypeId)
    requires ty { ty.0 < length unit.now.types.terms }
    requires long { length unions.old.items ≡ unit.now.types.tags }
    ensures { (tag : ℕ) →
        tag_in (type_of unit.now.types ty.0) ≡ Some tag →
        IsNoted unit.now.types unions.old.items unions.new.items tag }
{
    match unit.types.term(ty) {
        Term::Structure(tag) => note_tag(&unit.types, unions, *tag),
        Term::Union(tag) => note_tag(&unit.types, unions, *tag),
        _ => {}
    }
}

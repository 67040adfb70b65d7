// The members of structures and unions, and the parts of a type.

ghost use Rattle.std.specs.Prelude.{◌≡◌, ℕ, ◌<◌, ◌↔◌, Option, Some, None, IsTrue, IsNone, IfSome, MatchOption, length};
ghost use Rattle.std.specs.Option.{option_map};
ghost use Rattle.c_types.specs.Table.{type_of};
ghost use Rattle.c_types.specs.Paths.{part_type, type_at_path};
ghost use Rattle.type_rules.specs.Members.{tag_of, member_at, IsMemberOf, width_of};

use crate::kinds::lacks_length;
use c_types::table::TypeTable;
use c_types::term::{MemberTerm, PathStep, Term, TypeId};

/// Member `k`, from 0, of a complete structure or union; None exactly where there is none.
pub fn member_at(types: &TypeTable, whole: TypeId, k: u32) -> Option<&MemberTerm>
    requires { whole.0 < length types.now.terms }
    ensures member { let found = member_at types.now (tag_of (type_of types.now whole.0)) k in
        MatchOption result (found ≡ None) (λ m. found ≡ Some m.now) }
    ensures known { IfSome result (λ m. m.now.ty.0 < length types.now.terms) }
{
    match types.term(whole) {
        Term::Structure(tag) | Term::Union(tag) => match types.members(*tag) {
            Some(members) => members.get(k as usize),
            None => None,
        },
        _ => None,
    }
}

/// Whether member `k` of a structure or union has that type.
pub fn is_member(types: &TypeTable, whole: TypeId, k: u32, ty: TypeId) -> bool
    requires whole { whole.0 < length types.now.terms }
    requires ty { ty.0 < length types.now.terms }
    ensures { IsTrue result ↔ IsMemberOf types.now (type_of types.now whole.0) k (type_of types.now ty.0) }
{
    match member_at(types, whole, k) {
        Some(member) => types.same(member.ty, ty),
        None => false,
    }
}

/// The width of member `k`, where it is a bit-field (C11 6.7.2.1p9).
pub fn member_width(types: &TypeTable, whole: TypeId, k: u32) -> Option<u8>
    requires { whole.0 < length types.now.terms }
    ensures { result ≡ width_of (member_at types.now (tag_of (type_of types.now whole.0)) k) }
{
    match member_at(types, whole, k) {
        Some(member) => member.bits,
        None => None,
    }
}

/// The type of a part of a type: an element below the length, or a member that is no flexible array; None exactly where
/// there is no such part.
pub fn part_of(types: &TypeTable, whole: TypeId, step: PathStep) -> Option<TypeId>
    requires { whole.0 < length types.now.terms }
    ensures part { option_map (λ part. type_of types.now part.0) result ≡ part_type types.now (type_of types.now whole.0) step }
    ensures known { IfSome result (λ part. part.0 < length types.now.terms) }
{
    match step {
        PathStep::Index(i) => element_of(types, whole, i),
        PathStep::Member(k) => match member_at(types, whole, k) {
            Some(member) => {
                if lacks_length(types, member.ty) {
                    None
                } else {
                    Some(member.ty)
                }
            }
            None => None,
        },
    }
}

// The type of an element below an array's length.
fn element_of(types: &TypeTable, whole: TypeId, i: u64) -> Option<TypeId>
    requires { whole.0 < length types.now.terms }
    ensures part { option_map (λ part. type_of types.now part.0) result
        ≡ part_type types.now (type_of types.now whole.0) (PathStep.Index i) }
    ensures known { IfSome result (λ part. part.0 < length types.now.terms) }
{
    match types.term(whole) {
        Term::Array {
            of,
            length: Some(length),
        } => { if i < *length { Some(*of) } else { None } }
        _ => None,
    }
}

/// The type at the end of a path of parts; None exactly where the path leaves the type.
pub fn at_path(types: &TypeTable, whole: TypeId, path: &[PathStep]) -> Option<TypeId>
    requires { whole.0 < length types.now.terms }
    ensures part { option_map (λ part. type_of types.now part.0) result
        ≡ type_at_path types.now (Some (type_of types.now whole.0)) path.now }
    ensures known { IfSome result (λ part. part.0 < length types.now.terms) }
{
    let mut part = whole;
    for step in path {
        match part_of(types, part, *step) {
            Some(below) => part = below,
            None => return None,
        }
    }
    Some(part)
}

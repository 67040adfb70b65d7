//! The members of a type.
ghost use Rattle.std.specs.Prelude.{◌≡◌, ◌<◌, All, IfSome, MatchOption, is_some, length, slice_get};
ghost use Rattle.c_types.specs.Table.{type_of};
ghost use Rattle.c_senses.specs.World.{World, members_of as members_in_world};
ghost use Rattle.c_senses.specs.Objects.{part_at};
ghost use Rattle.c_operators.specs.c_members.Worlds.{IsWorldOf, members_in_type, part_of};

use c_types::table::TypeTable;
use c_types::term::{MemberTerm, Term, TypeId};

/// The members of a structure or union in order; None exactly where it isn't complete, or the type is another one.
pub fn members_of(types: &TypeTable, whole: TypeId) -> Option<&[MemberTerm]>
    requires { whole.0 < length types.now.terms }
    ensures list { let found = members_in_type types.now (type_of types.now whole.0) in
        MatchOption result (found ≡ None) (λ m. found ≡ Some m.now) }
    ensures types { IfSome result (λ m. All (λ member. member.ty.0 < length types.now.terms) m.now) }
{
    match types.term(whole) {
        Term::Structure(tag) | Term::Union(tag) => types.members(*tag),
        _ => None,
    }
}

/// Whether a type is a structure or union that is complete, as `->` asks of what its left operand points to (C11 6.5.2.3p2).
pub fn has_members(types: &TypeTable, whole: TypeId) -> bool
    requires { whole.0 < length types.now.terms }
    ensures { (w : World) → IsWorldOf w types.now → result ≡ is_some (members_in_world w (type_of types.now whole.0)) }
{
    members_of(types, whole).is_some()
}

/// Member `k`, from 0, of a complete structure or union; None exactly where there is none.
pub fn member_of(types: &TypeTable, whole: TypeId, k: u32) -> Option<&MemberTerm>
    requires { whole.0 < length types.now.terms }
    ensures member { (w : World) →
        IsWorldOf w types.now →
        MatchOption result (part_at (members_in_world w (type_of types.now whole.0)) k ≡ None)
        (λ m. part_at (members_in_world w (type_of types.now whole.0)) k ≡ Some (part_of types.now m.now)) }
    ensures known { IfSome result (λ m. m.now.ty.0 < length types.now.terms) }
{
    match members_of(types, whole) {
        Some(members) => members.get(k as usize),
        None => None,
    }
}

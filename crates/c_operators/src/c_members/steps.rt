//! What refuses a member by its type alone (C11 6.5.2.3).
ghost use Rattle.std.specs.Prelude.{◌≡◌, ◌<◌, length};
ghost use Rattle.c_types.specs.Table.{type_of};
ghost use Rattle.c_operators.specs.c_members.Steps as spec;

use c_types::table::TypeTable;
use c_types::term::{Term, TypeId};
use pta_base::Kind;

/// Why a member of a type isn't reached, in a place or in a value: `FlexibleMember` for an array without a length, `ArrayOfValue` for
/// any other array of a value, `Floating` for floating types; None for every other member.
pub fn member_refusal(types: &TypeTable, ty: TypeId, of_place: bool) -> Option<Kind>
    requires { ty.0 < length types.now.terms }
    ensures { result ≡ spec.member_refusal (type_of types.now ty.0) of_place }
{
    match types.term(ty) {
        Term::Array { length: None, .. } => Some(Kind::FlexibleMember),
        Term::Array { .. } if !of_place => Some(Kind::ArrayOfValue),
        Term::Floating => Some(Kind::Floating),
        _ => None,
    }
}

// The type at the end of a path.
ghost use Rattle.std.specs.Prelude.{◌≡◌, ◌<◌, ℕ, length, IfSome, Some};
ghost use Rattle.c_types.specs.Table.{type_of};
ghost use Rattle.c_senses.specs.World.{World};
ghost use Rattle.c_senses.specs.Initialised as spec;
ghost use Rattle.c_operators.specs.c_members.Worlds.{IsWorldOf};
ghost use Rattle.c_initials.specs.Along.{type_in};

use c_operators::c_members::member_of;
use c_types::table::TypeTable;
use c_types::term::{PathStep, Term, TypeId};

// The element of an array.
fn element_of(types: &TypeTable, ty: TypeId) -> Option<TypeId>
    requires { ty.0 < length types.now.terms }
    ensures element { (w : World) (k : ℕ) →
        type_in types.now result ≡ spec.type_below w (type_of types.now ty.0) (PathStep.Index k) }
    ensures within { IfSome result (λ id. id.0 < length types.now.terms) }
{
    let _count = types.type_count();
    match types.term(ty) {
        Term::Array { of, .. } => Some(*of),
        _ => None,
    }
}

// The part of a type by one step.
fn type_below(types: &TypeTable, ty: TypeId, step: PathStep) -> Option<TypeId>
    requires { ty.0 < length types.now.terms }
    ensures part { (w : World) →
        IsWorldOf w types.now → type_in types.now result ≡ spec.type_below w (type_of types.now ty.0) step }
    ensures within { IfSome result (λ id. id.0 < length types.now.terms) }
{
    match step {
        PathStep::Index(_) => element_of(types, ty),
        PathStep::Member(k) => match member_of(types, ty, k) {
            Some(member) => Some(member.ty),
            None => None,
        },
    }
}

/// The type of the sub-object at a path of an object of a type, where there is one.
pub(crate) fn type_along(types: &TypeTable, ty: TypeId, path: &[PathStep]) -> Option<TypeId>
    requires { ty.0 < length types.now.terms }
    ensures part { (w : World) →
        IsWorldOf w types.now →
        type_in types.now result ≡ spec.type_along w (Some (type_of types.now ty.0)) path.now }
    ensures within { IfSome result (λ id. id.0 < length types.now.terms) }
{
    let mut here = ty;
    for step in path {
        match type_below(types, here, *step) {
            Some(next) => here = next,
            None => return None,
        }
    }
    Some(here)
}

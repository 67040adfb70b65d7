// Members that a structure or union may be completed with.
ghost use Rattle.std.specs.Prelude.{◌≡◌, ◌<◌, ℕ, true, false, length, map, is_some, All};
ghost use Rattle.c_types.specs.Table.{type_of, extent_in};
ghost use Rattle.c_inits.specs.Tables.{part_of};
ghost use Rattle.c_senses.specs.Tags.{bits_in};
ghost use Rattle.struct_rows.specs.Taken as spec;

use c_types::table::TypeTable;
use c_types::term::{MemberTerm, Term, TypeId};

// Whether a type is a complete object type.
fn is_complete(types: &TypeTable, ty: TypeId) -> bool
    requires { ty.0 < length types.now.terms }
    ensures { result ≡ is_some (extent_in types.now (type_of types.now ty.0)) }
{
    types.align_of(ty).is_some()
}

// Whether a type is an array without a length, of a complete type.
fn is_flexible(types: &TypeTable, ty: TypeId) -> bool
    requires { ty.0 < length types.now.terms }
    ensures { result ≡ spec.is_flexible (extent_in types.now) (type_of types.now ty.0) }
{
    match types.term(ty) {
        Term::Array { of, length: None } => is_complete(types, *of),
        _ => false,
    }
}

// Whether a width is one of a bit-field of a type.
fn width_fits(types: &TypeTable, ty: TypeId, bits: u8) -> bool
    requires { ty.0 < length types.now.terms }
    ensures { result ≡ spec.width_in (bits_in (type_of types.now ty.0)) bits }
{
    match types.term(ty) {
        Term::Bool => 0 < bits && bits <= 8,
        Term::Integer { size, .. } => 0 < bits && u16::from(bits) <= 8 * u16::from(*size),
        _ => false,
    }
}

// Whether a member's width is one of its type, if it has one.
fn bits_fit(types: &TypeTable, ty: TypeId, bits: Option<u8>) -> bool
    requires { ty.0 < length types.now.terms }
    ensures { result ≡ spec.bits_fit (type_of types.now ty.0) bits }
{
    match bits {
        Some(bits) => width_fits(types, ty, bits),
        None => true,
    }
}

// Whether a type is complete, or is one that ends a structure of another member.
fn type_fits(types: &TypeTable, ty: TypeId, is_union: bool, is_first: bool, is_last: bool) -> bool
    requires { ty.0 < length types.now.terms }
    ensures { result ≡ spec.type_fits (extent_in types.now) is_union is_first is_last (type_of types.now ty.0) }
{
    is_complete(types, ty) || (!is_union && (!is_first && (is_last && is_flexible(types, ty))))
}

// Whether a member may stand in its place.
fn takes_member(
    types: &TypeTable,
    member: &MemberTerm,
    is_union: bool,
    is_first: bool,
    is_last: bool,
) -> bool
    requires { member.now.ty.0 < length types.now.terms }
    ensures { result ≡ spec.takes_member (extent_in types.now) is_union is_first is_last (part_of types.now member.now) }
{
    bits_fit(types, member.ty, member.bits)
        && type_fits(types, member.ty, is_union, is_first, is_last)
}

/// Whether a structure or union may be completed with some members.
pub fn takes(types: &TypeTable, members: &[MemberTerm], is_union: bool) -> bool
    requires { All (λ m. m.ty.0 < length types.now.terms) members.now }
    ensures { result ≡ spec.takes (extent_in types.now) is_union true (map (part_of types.now) members.now) }
{
    for i in 0..members.len() {
        if !takes_member(types, &members[i], is_union, i == 0, i + 1 == members.len()) {
            return false;
        }
    }
    true
}

// The numbers of types.

ghost use Rattle.std.specs.Prelude.{◌≡◌, ◌+◌, ◌<◌, ◌^◌, None, IfSome, length};
ghost use Rattle.std.specs.Option.{option_map};
ghost use Rattle.c_types.specs.Table.{type_of};
ghost use Rattle.row_numbers.specs.Numbers.{integer_number, type_number, element_of};

use c_types::table::TypeTable;
use c_types::term::{Term, TypeId};

// The number of an integer type by its size.
fn integer_number(size: u8) -> u32
    ensures { result ≡ integer_number size }
{
    if size == 1 {
        0
    } else if size == 2 {
        1
    } else if size == 4 {
        2
    } else {
        3
    }
}

// The type of an array's elements; None exactly where a type is no array.
fn element(types: &TypeTable, id: TypeId) -> Option<TypeId>
    requires { id.0 < length types.now.terms }
    ensures value { option_map (λ of. type_of types.now of.0) result ≡ element_of (type_of types.now id.0) }
    ensures below { IfSome result (λ of. of.0 < id.0) }
{
    match types.term(id) {
        Term::Array { of, .. } => Some(*of),
        _ => None,
    }
}

// The number of a type that is no array.
fn own_number(types: &TypeTable, id: TypeId) -> u32
    requires id { id.0 < length types.now.terms }
    requires tags { types.now.tags + 8 < 2 ^ 32 }
    requires element { element_of (type_of types.now id.0) ≡ None }
    ensures { result ≡ type_number (type_of types.now id.0) }
{
    match types.term(id) {
        Term::Void | Term::Function { .. } => 5,
        Term::Bool => 0,
        Term::Integer { size, .. } => integer_number(*size),
        Term::Floating => 6,
        Term::VaList => 7,
        Term::Pointer(_) => 4,
        Term::Array { .. } => unreachable!(),
        Term::Structure(tag) | Term::Union(tag) => 8 + *tag,
    }
}

/// The number of a type; an array counts as its element (C11 6.2.5p20).
pub fn type_number(types: &TypeTable, id: TypeId) -> u32
    requires id { id.0 < length types.now.terms }
    requires tags { types.now.tags + 8 < 2 ^ 32 }
    ensures { result ≡ type_number (type_of types.now id.0) }
{
    let mut at = id;
    while let Some(of) = element(types, at) {
        at = of;
    }
    own_number(types, at)
}

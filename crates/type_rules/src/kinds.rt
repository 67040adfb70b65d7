// What a type is (C11 6.2.5).

ghost use Rattle.std.specs.Prelude.{◌≡◌, ℕ, ◌+◌, ◌<◌, ◌↔◌, Some, true, IsTrue, All, length};
ghost use Rattle.c_types.specs.Trees.{VoidType, IntegerType, PointerTo, ArrayOf, trees_at};
ghost use Rattle.c_types.specs.Table.{type_of, types_of};
ghost use Rattle.type_rules.specs.Kinds.{IsInteger, IsPointer, IsScalar, IsAggregate, IsArray, IsFunction, IsStored};
ghost use Rattle.type_rules.specs.Kinds.{IsPromoted, IsPassed, IsComparable, IsList, IsVariadic, AreScalars, IsEntryType};
ghost use Rattle.type_rules.specs.Kinds.{LacksLength, character};

use c_types::table::TypeTable;
use c_types::term::{Form, Term, TypeId};

/// Whether a type is void.
pub fn is_void(types: &TypeTable, id: TypeId) -> bool
    requires { id.0 < length types.now.terms }
    ensures { IsTrue result ↔ (type_of types.now id.0 ≡ VoidType) }
{
    matches!(types.term(id), Term::Void)
}

/// Whether a type is one of whole numbers, `_Bool` among them (C11 6.2.5p17).
pub fn is_integer(types: &TypeTable, id: TypeId) -> bool
    requires { id.0 < length types.now.terms }
    ensures { IsTrue result ↔ IsInteger (type_of types.now id.0) }
{
    matches!(types.term(id), Term::Bool | Term::Integer { .. })
}

/// Whether a type is the signed integer of that size and rank.
pub fn is_signed_integer(types: &TypeTable, id: TypeId, size: u8, rank: u8) -> bool
    requires { id.0 < length types.now.terms }
    ensures { IsTrue result ↔ (type_of types.now id.0 ≡ IntegerType size rank true) }
{
    match types.term(id) {
        Term::Integer {
            size: other,
            rank: number,
            signed,
        } => *other == size && *number == rank && *signed,
        _ => false,
    }
}

/// Whether a type is the array of `char` for so many bytes and a closing zero (C11 6.4.5p6).
pub fn is_text(types: &TypeTable, id: TypeId, bytes: u64) -> bool
    requires { id.0 < length types.now.terms }
    ensures { IsTrue result ↔ (type_of types.now id.0 ≡ ArrayOf character (Some (bytes + 1))) }
{
    match types.term(id) {
        Term::Array {
            of,
            length: Some(length),
        } => *length > bytes && *length - bytes == 1 && is_signed_integer(types, *of, 1, 1),
        _ => false,
    }
}

/// Whether a type is a pointer.
pub fn is_pointer(types: &TypeTable, id: TypeId) -> bool
    requires { id.0 < length types.now.terms }
    ensures { IsTrue result ↔ IsPointer (type_of types.now id.0) }
{
    matches!(types.term(id), Term::Pointer(_))
}

/// Whether one type is a pointer to another.
pub fn points_to(types: &TypeTable, pointer: TypeId, to: TypeId) -> bool
    requires pointer { pointer.0 < length types.now.terms }
    requires to { to.0 < length types.now.terms }
    ensures { IsTrue result ↔ (type_of types.now pointer.0 ≡ PointerTo (type_of types.now to.0)) }
{
    match types.term(pointer) {
        Term::Pointer(of) => types.same(*of, to),
        _ => false,
    }
}

/// Whether a type is an integer or a pointer. A floating type is none here.
pub fn is_scalar(types: &TypeTable, id: TypeId) -> bool
    requires { id.0 < length types.now.terms }
    ensures { IsTrue result ↔ IsScalar (type_of types.now id.0) }
{
    match types.term(id) {
        Term::Bool | Term::Integer { .. } => true,
        Term::Pointer(_) => true,
        _ => false,
    }
}

/// Whether a type is a structure or a union.
pub fn is_aggregate(types: &TypeTable, id: TypeId) -> bool
    requires { id.0 < length types.now.terms }
    ensures { IsTrue result ↔ IsAggregate (type_of types.now id.0) }
{
    matches!(types.term(id), Term::Structure(_) | Term::Union(_))
}

/// Whether a type is an array.
pub fn is_array(types: &TypeTable, id: TypeId) -> bool
    requires { id.0 < length types.now.terms }
    ensures { IsTrue result ↔ IsArray (type_of types.now id.0) }
{
    matches!(types.term(id), Term::Array { .. })
}

/// Whether a type is a function.
pub fn is_function(types: &TypeTable, id: TypeId) -> bool
    requires { id.0 < length types.now.terms }
    ensures { IsTrue result ↔ IsFunction (type_of types.now id.0) }
{
    matches!(types.term(id), Term::Function { .. })
}

/// Whether a type is that of variadic lists (C11 7.16p3).
pub fn is_list(types: &TypeTable, id: TypeId) -> bool
    requires { id.0 < length types.now.terms }
    ensures { IsTrue result ↔ IsList (type_of types.now id.0) }
{
    matches!(types.term(id), Term::VaList)
}

/// Whether a type is that of a function that takes arguments past its parameters (C11 6.7.6.3p9).
pub fn is_variadic(types: &TypeTable, id: TypeId) -> bool
    requires { id.0 < length types.now.terms }
    ensures { IsTrue result ↔ IsVariadic (type_of types.now id.0) }
{
    match types.term(id) {
        Term::Function { form, .. } => *form == Form::Variadic,
        _ => false,
    }
}

// Whether each type of a list is an integer or a pointer.
fn each_scalar(types: &TypeTable, ids: &[TypeId]) -> bool
    requires { All (λ id. id.0 < length types.now.terms) ids.now }
    ensures { IsTrue result ↔ All (λ id. IsScalar (type_of types.now id.0)) ids.now }
{
    ids.iter().all(|id| is_scalar(types, *id))
}

// Whether parameters are integers and pointers alone.
fn are_scalars(types: &TypeTable, ids: &[TypeId]) -> bool
    requires { All (λ id. id.0 < length types.now.terms) ids.now }
    ensures { IsTrue result ↔ AreScalars (trees_at (types_of types.now) ids.now) }
{
    each_scalar(types, ids)
}

/// Whether a function of that type may be called from outside: it takes integers and pointers and no arguments past
/// them, and gives nothing, an integer or a pointer.
pub fn is_entry_type(types: &TypeTable, id: TypeId) -> bool
    requires { id.0 < length types.now.terms }
    ensures { IsTrue result ↔ IsEntryType (type_of types.now id.0) }
{
    match types.term(id) {
        Term::Function {
            result: given,
            parameters,
            form,
        } => {
            *form != Form::Variadic
                && (is_void(types, *given) || is_scalar(types, *given))
                && are_scalars(types, parameters.as_slice())
        }
        _ => false,
    }
}

/// Whether a type may be fetched and assigned: a scalar, a structure, a union or a variadic list.
pub fn is_stored(types: &TypeTable, id: TypeId) -> bool
    requires { id.0 < length types.now.terms }
    ensures { IsTrue result ↔ IsStored (type_of types.now id.0) }
{
    match types.term(id) {
        Term::Bool | Term::Integer { .. } => true,
        Term::Pointer(_) => true,
        Term::Structure(_) | Term::Union(_) | Term::VaList => true,
        _ => false,
    }
}

/// Whether a type is an integer that promotion leaves as it is (C11 6.3.1.1).
pub fn is_promoted(types: &TypeTable, id: TypeId) -> bool
    requires { id.0 < length types.now.terms }
    ensures { IsTrue result ↔ IsPromoted (type_of types.now id.0) }
{
    match types.term(id) {
        Term::Integer { size, .. } => *size >= 4,
        _ => false,
    }
}

/// Whether an argument past the parameters may have that type (C11 6.5.2.2p6): a promoted integer, a pointer, a
/// structure, a union or a variadic list.
pub fn is_passed(types: &TypeTable, id: TypeId) -> bool
    requires { id.0 < length types.now.terms }
    ensures { IsTrue result ↔ IsPassed (type_of types.now id.0) }
{
    match types.term(id) {
        Term::Integer { size, .. } => *size >= 4,
        Term::Pointer(_) => true,
        Term::Structure(_) | Term::Union(_) | Term::VaList => true,
        _ => false,
    }
}

/// Whether values of a type are compared: a promoted integer or a pointer.
pub fn is_comparable(types: &TypeTable, id: TypeId) -> bool
    requires { id.0 < length types.now.terms }
    ensures { IsTrue result ↔ IsComparable (type_of types.now id.0) }
{
    match types.term(id) {
        Term::Integer { size, .. } => *size >= 4,
        Term::Pointer(_) => true,
        _ => false,
    }
}

/// Whether a type is an array without a length (C11 6.2.5p22).
pub fn lacks_length(types: &TypeTable, id: TypeId) -> bool
    requires { id.0 < length types.now.terms }
    ensures { IsTrue result ↔ LacksLength (type_of types.now id.0) }
{
    match types.term(id) {
        Term::Array { length, .. } => length.is_none(),
        _ => false,
    }
}

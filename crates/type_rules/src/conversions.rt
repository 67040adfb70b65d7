// Which types agree, and which values turn into which (C11 6.3, 6.7.6).

ghost use Rattle.std.specs.Prelude.{◌≡◌, ℕ, ◌<◌, ◌↔◌, Some, IsTrue, length};
ghost use Rattle.c_types.specs.Trees.{PointerTo, IntegerType};
ghost use Rattle.c_types.specs.Table.{type_of};
ghost use Rattle.type_rules.specs.Conversions.{Agree, Converts, decayed, IsFirstOf, result_of};

use crate::kinds::{is_function, is_integer, is_void, points_to};
use crate::members::is_member;
use c_types::table::TypeTable;
use c_types::term::{Form, Term, TypeId};

/// Whether two types agree: they are the same, or a list `()` stands against any list, or an array without a length
/// against one of any length (C11 6.2.7).
pub fn agree(types: &TypeTable, a: TypeId, b: TypeId) -> bool
    requires left { a.0 < length types.now.terms }
    requires right { b.0 < length types.now.terms }
    ensures { IsTrue result ↔ Agree (type_of types.now a.0) (type_of types.now b.0) }
{
    match types.term(a) {
        Term::Function {
            result: given,
            form,
            ..
        } => match types.term(b) {
            Term::Function {
                result: other,
                form: list,
                ..
            } => {
                if *form == Form::Unspecified || *list == Form::Unspecified {
                    types.same(*given, *other)
                } else {
                    types.same(a, b)
                }
            }
            _ => false,
        },
        Term::Array { of, length } => match types.term(b) {
            Term::Array {
                of: element,
                length: count,
            } => {
                if length.is_none() || count.is_none() {
                    types.same(*of, *element)
                } else {
                    types.same(a, b)
                }
            }
            _ => false,
        },
        _ => types.same(a, b),
    }
}

/// Whether a value of one type may be converted to another: the conversions of C11 6.3 that keep the value, the object
/// or the function, and any value to void. The target may be the same type only where this says so.
pub fn converts(types: &TypeTable, from: TypeId, to: TypeId) -> bool
    requires from { from.0 < length types.now.terms }
    requires to { to.0 < length types.now.terms }
    ensures { IsTrue result ↔ Converts (type_of types.now from.0) (type_of types.now to.0) }
{
    match types.term(from) {
        Term::Pointer(a) => pointer_converts(types, *a, to),
        Term::Integer { .. } => is_integer(types, to) || is_void(types, to),
        Term::Bool => match types.term(to) {
            Term::Integer { .. } | Term::Void => true,
            _ => false,
        },
        _ => is_void(types, to),
    }
}

// Whether a pointer to a type may be converted to another type.
fn pointer_converts(types: &TypeTable, a: TypeId, to: TypeId) -> bool
    requires from { a.0 < length types.now.terms }
    requires to { to.0 < length types.now.terms }
    ensures { IsTrue result ↔ Converts (PointerTo (type_of types.now a.0)) (type_of types.now to.0) }
{
    match types.term(to) {
        Term::Void | Term::Bool => true,
        Term::Integer { .. } => true,
        Term::Pointer(b) => pointee_converts(types, a, *b),
        _ => false,
    }
}

// Whether a pointer to a type may be converted to a pointer to another.
fn pointee_converts(types: &TypeTable, a: TypeId, b: TypeId) -> bool
    requires from { a.0 < length types.now.terms }
    requires to { b.0 < length types.now.terms }
    ensures { IsTrue result ↔ Converts (PointerTo (type_of types.now a.0)) (PointerTo (type_of types.now b.0)) }
{
    match types.term(a) {
        Term::Function { .. } => is_function(types, b),
        Term::Void => !is_function(types, b),
        Term::Integer { size, .. } => match types.term(b) {
            Term::Void => true,
            Term::Bool => *size == 1,
            Term::Integer { size: other, .. } => *size == *other,
            _ => false,
        },
        Term::Bool => match types.term(b) {
            Term::Void => true,
            Term::Integer { size, .. } => *size == 1,
            _ => false,
        },
        Term::Pointer(_) => match types.term(b) {
            Term::Void | Term::Pointer(_) => true,
            _ => false,
        },
        _ => is_void(types, b),
    }
}

/// Whether a place of one type turns into a value of another: an array into a pointer to its first element, a function
/// into a pointer to it (C11 6.3.2.1).
pub fn decays_to(types: &TypeTable, from: TypeId, to: TypeId) -> bool
    requires from { from.0 < length types.now.terms }
    requires to { to.0 < length types.now.terms }
    ensures { IsTrue result ↔ (decayed (type_of types.now from.0) ≡ Some (type_of types.now to.0)) }
{
    match types.term(from) {
        Term::Array { of, .. } => points_to(types, to, *of),
        Term::Function { .. } => points_to(types, to, from),
        _ => false,
    }
}

/// Whether one type is a pointer to a structure, and the other one a pointer to its first member (C11 6.7.2.1p15).
pub fn is_first_of(types: &TypeTable, from: TypeId, to: TypeId) -> bool
    requires from { from.0 < length types.now.terms }
    requires to { to.0 < length types.now.terms }
    ensures { IsTrue result ↔ IsFirstOf types.now (type_of types.now from.0) (type_of types.now to.0) }
{
    match types.term(from) {
        Term::Pointer(whole) => match types.term(*whole) {
            Term::Structure(_) => match types.term(to) {
                Term::Pointer(first) => is_member(types, *whole, 0, *first),
                _ => false,
            },
            _ => false,
        },
        _ => false,
    }
}

/// Whether a value has the type that a function gives, which is void for what is no function.
pub fn is_result_of(types: &TypeTable, value: TypeId, function: TypeId) -> bool
    requires value { value.0 < length types.now.terms }
    requires function { function.0 < length types.now.terms }
    ensures { IsTrue result ↔ (type_of types.now value.0 ≡ result_of (type_of types.now function.0)) }
{
    match types.term(function) {
        Term::Function { result: given, .. } => types.same(value, *given),
        _ => is_void(types, value),
    }
}

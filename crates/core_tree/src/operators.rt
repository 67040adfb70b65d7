// How operators stand over values (C11 6.5).

ghost use Rattle.std.specs.Prelude.{◌≡◌, ℕ, ◌<◌, ◌↔◌, IsTrue, length};
ghost use Rattle.c_types.specs.Table.{type_of};
ghost use Rattle.core_tree.specs.Rows.{IsUpdate, IsMove, Updates, Unary, Binary, Compares, Computes, Shifts, Subtracts};

use crate::node::Op;
use c_types::table::TypeTable;
use c_types::term::TypeId;
use type_rules::kinds::{
    is_comparable, is_integer, is_pointer, is_promoted, is_scalar, is_signed_integer,
};

// Whether an assignment may compute by an operator (C11 6.5.16.2).
fn is_update(op: Op) -> bool
    ensures { IsTrue result ↔ IsUpdate op }
{
    match op {
        Op::Multiply | Op::Divide | Op::Remainder | Op::Plus | Op::Minus => true,
        Op::ShiftLeft | Op::ShiftRight | Op::And | Op::Xor | Op::Or => true,
        _ => false,
    }
}

/// Whether an Update by that operator may have that type.
pub fn updates(types: &TypeTable, op: Op, ty: TypeId) -> bool
    requires { ty.0 < length types.now.terms }
    ensures { IsTrue result ↔ Updates op (type_of types.now ty.0) }
{
    (is_integer(types, ty) && is_update(op))
        || (is_pointer(types, ty) && matches!(op, Op::Plus | Op::Minus))
}

/// Whether an operator over one value gives that type (C11 6.5.3.3).
pub fn unary(types: &TypeTable, op: Op, a: TypeId, ty: TypeId) -> bool
    requires operand { a.0 < length types.now.terms }
    requires ty { ty.0 < length types.now.terms }
    ensures { IsTrue result ↔ Unary op (type_of types.now a.0) (type_of types.now ty.0) }
{
    match op {
        Op::Not => is_scalar(types, a) && is_signed_integer(types, ty, 4, 4),
        Op::Plus | Op::Minus | Op::Complement => is_promoted(types, a) && types.same(ty, a),
        _ => false,
    }
}

// Whether a comparison of those types gives that type (C11 6.5.8, 6.5.9).
fn compares(types: &TypeTable, a: TypeId, b: TypeId, ty: TypeId) -> bool
    requires left { a.0 < length types.now.terms }
    requires right { b.0 < length types.now.terms }
    requires ty { ty.0 < length types.now.terms }
    ensures { IsTrue result
        ↔ Compares (type_of types.now a.0) (type_of types.now b.0) (type_of types.now ty.0) }
{
    is_comparable(types, a) && types.same(a, b) && is_signed_integer(types, ty, 4, 4)
}

// Whether a computation over those types gives that type (C11 6.3.1.8).
fn computes(types: &TypeTable, a: TypeId, b: TypeId, ty: TypeId) -> bool
    requires left { a.0 < length types.now.terms }
    requires right { b.0 < length types.now.terms }
    requires ty { ty.0 < length types.now.terms }
    ensures { IsTrue result
        ↔ Computes (type_of types.now a.0) (type_of types.now b.0) (type_of types.now ty.0) }
{
    is_promoted(types, a) && types.same(a, b) && types.same(ty, a)
}

// Whether a shift of those types gives that type (C11 6.5.7).
fn shifts(types: &TypeTable, a: TypeId, b: TypeId, ty: TypeId) -> bool
    requires left { a.0 < length types.now.terms }
    requires right { b.0 < length types.now.terms }
    requires ty { ty.0 < length types.now.terms }
    ensures { IsTrue result
        ↔ Shifts (type_of types.now a.0) (type_of types.now b.0) (type_of types.now ty.0) }
{
    is_promoted(types, a) && is_promoted(types, b) && types.same(ty, a)
}

// Whether a difference of those types gives that type (C11 6.5.6p9).
fn subtracts(types: &TypeTable, a: TypeId, b: TypeId, ty: TypeId) -> bool
    requires left { a.0 < length types.now.terms }
    requires right { b.0 < length types.now.terms }
    requires ty { ty.0 < length types.now.terms }
    ensures { IsTrue result
        ↔ Subtracts (type_of types.now a.0) (type_of types.now b.0) (type_of types.now ty.0) }
{
    if is_pointer(types, a) {
        types.same(a, b) && is_signed_integer(types, ty, 8, 5)
    } else {
        computes(types, a, b, ty)
    }
}

/// Whether an operator over two values gives that type.
pub fn binary(types: &TypeTable, op: Op, a: TypeId, b: TypeId, ty: TypeId) -> bool
    requires left { a.0 < length types.now.terms }
    requires right { b.0 < length types.now.terms }
    requires ty { ty.0 < length types.now.terms }
    ensures { IsTrue result
        ↔ Binary op (type_of types.now a.0) (type_of types.now b.0) (type_of types.now ty.0) }
{
    match op {
        Op::Not | Op::Complement => false,
        Op::Minus => subtracts(types, a, b, ty),
        Op::ShiftLeft | Op::ShiftRight => shifts(types, a, b, ty),
        Op::Less | Op::Greater | Op::LessEqual => compares(types, a, b, ty),
        Op::GreaterEqual | Op::Equal | Op::NotEqual => compares(types, a, b, ty),
        Op::Multiply | Op::Divide | Op::Remainder | Op::Plus => computes(types, a, b, ty),
        Op::And | Op::Xor | Op::Or => computes(types, a, b, ty),
    }
}

// The rows of values: how each stands over its children.

ghost use Rattle.std.specs.Prelude.{◌≡◌, ℕ, ◌<◌, ◌↔◌, IsTrue, All, length};
ghost use Rattle.c_types.specs.Table.{type_of};
ghost use Rattle.core_tree.specs.Seen.{core_of};
ghost use Rattle.core_tree.specs.Rows.{NumberRow, NullRow, FetchRow, AddressRow, DecayRow, PointerAddRow, ConvertRow};
ghost use Rattle.core_tree.specs.Rows.{UpcastRow, AssignRow, UpdateRow, ChooseRow, SequenceRow, MemberOfValueRow};
ghost use Rattle.core_tree.specs.Rows.{ArithRow, IsOverTwo, VarArgsRow, NextArgRow};
ghost use Rattle.core_tree.specs.Range.{InRange};

use crate::kinds::{
    is_any_value, is_condition, is_list_place, is_numeral, is_place, is_place_kind, is_value,
    is_value_kind,
};
use crate::node::Op;
use crate::operators::{binary, unary, updates};
use crate::places::place_width;
use crate::trees::Trees;
use c_types::term::TypeId;
use type_rules::conversions::{converts, decays_to, is_first_of};
use type_rules::kinds::{
    is_array, is_list, is_pointer, is_scalar, is_stored, is_variadic, points_to,
};
use type_rules::members::is_member;
use type_rules::numbers::holds;
use type_rules::sizes::points_to_object;

/// Whether a number stands alone, in the range of that type.
pub fn number_row(trees: &Trees<'_>, n: i128, ty: TypeId, children: &[u32]) -> bool
    requires { ty.0 < length trees.now.types.now.terms }
    ensures { IsTrue result ↔ NumberRow n (type_of trees.now.types.now ty.0) children.now }
{
    match children {
        [] => holds(trees.types, ty, n),
        _ => false,
    }
}

/// Whether a null value stands alone, of a pointer type.
pub fn null_row(trees: &Trees<'_>, ty: TypeId, children: &[u32]) -> bool
    requires { ty.0 < length trees.now.types.now.terms }
    ensures { IsTrue result ↔ NullRow (type_of trees.now.types.now ty.0) children.now }
{
    match children {
        [] => is_pointer(trees.types, ty),
        _ => false,
    }
}

/// Whether a Fetch of that type stands over a place of it (C11 6.3.2.1p2).
pub fn fetch_row(trees: &Trees<'_>, ty: TypeId, children: &[u32]) -> bool
    requires range { InRange (core_of trees.now) }
    requires ty { ty.0 < length trees.now.types.now.terms }
    requires children { All (λ c. c < length trees.now.nodes.now) children.now }
    ensures { IsTrue result ↔ FetchRow (core_of trees.now) (type_of trees.now.types.now ty.0) children.now }
{
    match children {
        [p] => is_place(trees, *p, ty) && is_stored(trees.types, ty),
        _ => false,
    }
}

/// Whether an AddressOf of that type stands over a place that is no bit-field (C11 6.5.3.2).
pub fn address_row(trees: &Trees<'_>, ty: TypeId, children: &[u32]) -> bool
    requires range { InRange (core_of trees.now) }
    requires ty { ty.0 < length trees.now.types.now.terms }
    requires children { All (λ c. c < length trees.now.nodes.now) children.now }
    ensures { IsTrue result ↔ AddressRow (core_of trees.now) (type_of trees.now.types.now ty.0) children.now }
{
    match children {
        [p] => {
            let there = &trees.nodes[*p as usize];
            is_place_kind(&there.kind)
                && points_to(trees.types, ty, there.ty)
                && place_width(trees, *p).is_none()
        },
        _ => false,
    }
}

/// Whether a Decay of that type stands over an array or a function (C11 6.3.2.1p3).
pub fn decay_row(trees: &Trees<'_>, ty: TypeId, children: &[u32]) -> bool
    requires range { InRange (core_of trees.now) }
    requires ty { ty.0 < length trees.now.types.now.terms }
    requires children { All (λ c. c < length trees.now.nodes.now) children.now }
    ensures { IsTrue result ↔ DecayRow (core_of trees.now) (type_of trees.now.types.now ty.0) children.now }
{
    match children {
        [p] => {
            let there = &trees.nodes[*p as usize];
            is_place_kind(&there.kind) && decays_to(trees.types, there.ty, ty)
        },
        _ => false,
    }
}

/// Whether a PointerAdd of that type stands over a pointer and an integer (C11 6.5.6).
pub fn pointer_add_row(trees: &Trees<'_>, ty: TypeId, children: &[u32]) -> bool
    requires range { InRange (core_of trees.now) }
    requires ty { ty.0 < length trees.now.types.now.terms }
    requires children { All (λ c. c < length trees.now.nodes.now) children.now }
    ensures { IsTrue result ↔ PointerAddRow (core_of trees.now) (type_of trees.now.types.now ty.0) children.now }
{
    match children {
        [v, i] => {
            is_value(trees, *v, ty) && points_to_object(trees.types, ty) && is_numeral(trees, *i)
        },
        _ => false,
    }
}

/// Whether a Convert to that type stands over a value of another one (C11 6.3).
pub fn convert_row(trees: &Trees<'_>, ty: TypeId, children: &[u32]) -> bool
    requires range { InRange (core_of trees.now) }
    requires ty { ty.0 < length trees.now.types.now.terms }
    requires children { All (λ c. c < length trees.now.nodes.now) children.now }
    ensures { IsTrue result ↔ ConvertRow (core_of trees.now) (type_of trees.now.types.now ty.0) children.now }
{
    match children {
        [v] => {
            let there = &trees.nodes[*v as usize];
            is_value_kind(&there.kind)
                && !trees.types.same(there.ty, ty)
                && converts(trees.types, there.ty, ty)
        },
        _ => false,
    }
}

/// Whether an Upcast of that type stands over a pointer to a structure (C11 6.7.2.1p15).
pub fn upcast_row(trees: &Trees<'_>, ty: TypeId, children: &[u32]) -> bool
    requires range { InRange (core_of trees.now) }
    requires ty { ty.0 < length trees.now.types.now.terms }
    requires children { All (λ c. c < length trees.now.nodes.now) children.now }
    ensures { IsTrue result ↔ UpcastRow (core_of trees.now) (type_of trees.now.types.now ty.0) children.now }
{
    match children {
        [v] => {
            let there = &trees.nodes[*v as usize];
            is_value_kind(&there.kind) && is_first_of(trees.types, there.ty, ty)
        },
        _ => false,
    }
}

/// Whether an Assign of that type stands over a place and a value of it (C11 6.5.16.1).
pub fn assign_row(trees: &Trees<'_>, ty: TypeId, children: &[u32]) -> bool
    requires range { InRange (core_of trees.now) }
    requires ty { ty.0 < length trees.now.types.now.terms }
    requires children { All (λ c. c < length trees.now.nodes.now) children.now }
    ensures { IsTrue result ↔ AssignRow (core_of trees.now) (type_of trees.now.types.now ty.0) children.now }
{
    match children {
        [p, v] => {
            is_place(trees, *p, ty) && is_value(trees, *v, ty) && is_stored(trees.types, ty)
        },
        _ => false,
    }
}

/// Whether an Update of that type stands over a place of it and an integer (C11 6.5.16.2).
pub fn update_row(trees: &Trees<'_>, op: Op, ty: TypeId, children: &[u32]) -> bool
    requires range { InRange (core_of trees.now) }
    requires ty { ty.0 < length trees.now.types.now.terms }
    requires children { All (λ c. c < length trees.now.nodes.now) children.now }
    ensures { IsTrue result ↔ UpdateRow (core_of trees.now) op (type_of trees.now.types.now ty.0) children.now }
{
    match children {
        [p, v] => {
            is_place(trees, *p, ty) && is_numeral(trees, *v) && updates(trees.types, op, ty)
        },
        _ => false,
    }
}

/// Whether a Choose of that type stands over a condition and two values of it (C11 6.5.15).
pub fn choose_row(trees: &Trees<'_>, ty: TypeId, children: &[u32]) -> bool
    requires range { InRange (core_of trees.now) }
    requires ty { ty.0 < length trees.now.types.now.terms }
    requires children { All (λ c. c < length trees.now.nodes.now) children.now }
    ensures { IsTrue result ↔ ChooseRow (core_of trees.now) (type_of trees.now.types.now ty.0) children.now }
{
    match children {
        [c, a, b] => {
            is_condition(trees, *c) && is_value(trees, *a, ty) && is_value(trees, *b, ty)
        },
        _ => false,
    }
}

/// Whether a Sequence of that type stands over a value and a value of it (C11 6.5.17).
pub fn sequence_row(trees: &Trees<'_>, ty: TypeId, children: &[u32]) -> bool
    requires range { InRange (core_of trees.now) }
    requires ty { ty.0 < length trees.now.types.now.terms }
    requires children { All (λ c. c < length trees.now.nodes.now) children.now }
    ensures { IsTrue result ↔ SequenceRow (core_of trees.now) (type_of trees.now.types.now ty.0) children.now }
{
    match children {
        [a, b] => is_any_value(trees, *a) && is_value(trees, *b, ty),
        _ => false,
    }
}

/// Whether member `k` of a value has that type, and is no array (C11 6.5.2.3).
pub fn member_of_value_row(trees: &Trees<'_>, k: u32, ty: TypeId, children: &[u32]) -> bool
    requires range { InRange (core_of trees.now) }
    requires ty { ty.0 < length trees.now.types.now.terms }
    requires children { All (λ c. c < length trees.now.nodes.now) children.now }
    ensures { IsTrue result ↔ MemberOfValueRow (core_of trees.now) k (type_of trees.now.types.now ty.0) children.now }
{
    match children {
        [v] => {
            let there = &trees.nodes[*v as usize];
            is_value_kind(&there.kind)
                && is_member(trees.types, there.ty, k, ty)
                && !is_array(trees.types, ty)
        },
        _ => false,
    }
}

/// Whether an operator of that type stands over one or two values.
pub fn arith_row(trees: &Trees<'_>, op: Op, ty: TypeId, children: &[u32]) -> bool
    requires range { InRange (core_of trees.now) }
    requires ty { ty.0 < length trees.now.types.now.terms }
    requires children { All (λ c. c < length trees.now.nodes.now) children.now }
    ensures { IsTrue result ↔ ArithRow (core_of trees.now) op (type_of trees.now.types.now ty.0) children.now }
{
    match children {
        [a] => {
            let there = &trees.nodes[*a as usize];
            is_value_kind(&there.kind) && unary(trees.types, op, there.ty, ty)
        },
        [a, b] => over_two(trees, op, ty, *a, *b),
        _ => false,
    }
}

/// Whether the list of what a variadic function was passed past its parameters stands alone (C11 7.16.1.4): that type is
/// the list's, and the entity's is that of a variadic function.
pub fn var_args_row(trees: &Trees<'_>, e: u32, ty: TypeId, children: &[u32]) -> bool
    requires range { InRange (core_of trees.now) }
    requires entity { e < length trees.now.entities.now }
    requires ty { ty.0 < length trees.now.types.now.terms }
    ensures { IsTrue result ↔ VarArgsRow (core_of trees.now) e (type_of trees.now.types.now ty.0) children.now }
{
    match children {
        [] => {
            is_list(trees.types, ty) && is_variadic(trees.types, trees.entities[e as usize].ty)
        },
        _ => false,
    }
}

/// Whether the next argument of a list, an integer or a pointer, stands over a place of a list (C11 7.16.1.1).
pub fn next_arg_row(trees: &Trees<'_>, ty: TypeId, children: &[u32]) -> bool
    requires range { InRange (core_of trees.now) }
    requires ty { ty.0 < length trees.now.types.now.terms }
    requires children { All (λ c. c < length trees.now.nodes.now) children.now }
    ensures { IsTrue result ↔ NextArgRow (core_of trees.now) (type_of trees.now.types.now ty.0) children.now }
{
    match children {
        [p] => is_list_place(trees, *p) && is_scalar(trees.types, ty),
        _ => false,
    }
}

// Whether an operator of that type stands over two values.
fn over_two(trees: &Trees<'_>, op: Op, ty: TypeId, a: u32, b: u32) -> bool
    requires range { InRange (core_of trees.now) }
    requires ty { ty.0 < length trees.now.types.now.terms }
    requires left { a < length trees.now.nodes.now }
    requires right { b < length trees.now.nodes.now }
    ensures { IsTrue result ↔ IsOverTwo (core_of trees.now) op (type_of trees.now.types.now ty.0) a b }
{
    let left = &trees.nodes[a as usize];
    let right = &trees.nodes[b as usize];
    is_value_kind(&left.kind)
        && is_value_kind(&right.kind)
        && binary(trees.types, op, left.ty, right.ty, ty)
}

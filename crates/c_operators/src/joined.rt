// Pointers as operands of one type: null constants, and pointers to void (C11 6.3.2.3, 6.5.9, 6.5.15).
#![tactic(auto, using(core_nodes::proofs::IntegerTypes::integers))]

ghost use Rattle.std.specs.Prelude.{◌≡◌, ◌<◌, length, IfOk, None, false};
ghost use Rattle.c_types.specs.Table.{type_of};
ghost use Rattle.c_consts.specs.Core.{ctype_of};
ghost use Rattle.c_consts.specs.Answer.{Form, of_integer};
ghost use Rattle.c_senses.specs.Given.{Fits};
ghost use Rattle.c_senses.specs.Nulls.{is_void_pointer};
ghost use Rattle.c_senses.specs.Conversions.{converted as converted_spec, null_value as null_spec};
ghost use Rattle.c_senses.specs.Operators.{is_void as void_spec, is_object as object_spec};
ghost use Rattle.core_nodes.specs.Standing.{core_at, IsReady, Builds, Made};
ghost use Rattle.core_nodes.specs.Sorts.{sort_seen, IsWithin};
ghost use Rattle.c_operators.specs.Seen.{BothGiven};
ghost use Rattle.c_operators.specs.Joined as spec;

use c_types::table::TypeTable;
use c_types::term::{Term, TypeId};
use core_nodes::CheckFault;
use core_nodes::reads::{kind_of_node, place_of_node, type_of_node};
use core_nodes::sorts::{Operand, same_types};
use core_nodes::trees::{push_leaf, push_over};
use core_tree::node::{NodeKind, Unit};
use pta_base::Kind;
use std::alloc::Global;

// Whether a type is void.
fn is_void(types: &TypeTable, ty: TypeId) -> bool
    requires { ty.0 < length types.now.terms }
    ensures { result ≡ void_spec (type_of types.now ty.0) }
{
    match types.term(ty) {
        Term::Void => true,
        _ => false,
    }
}

// Whether a type is one of objects, complete or not, or void.
fn is_object(types: &TypeTable, ty: TypeId) -> bool
    requires { ty.0 < length types.now.terms }
    ensures { result ≡ object_spec (type_of types.now ty.0) }
{
    match types.term(ty) {
        Term::Function { .. } => false,
        _ => true,
    }
}

// Whether a type is that of pointers to void.
fn is_void_pointer(types: &TypeTable, ty: TypeId) -> bool
    requires { ty.0 < length types.now.terms }
    ensures { result ≡ is_void_pointer (type_of types.now ty.0) }
{
    match types.term(ty) {
        Term::Pointer(to) => is_void(types, *to),
        _ => false,
    }
}

// Whether an operator, a choice or a conversion of that type is a null constant: none is but where the type is an integer type.
fn computed_null(types: &TypeTable, ty: TypeId) -> Option<bool>
    requires { ty.0 < length types.now.terms }
    ensures { (f : Form) → spec.null_by f false ≡ None → result ≡ spec.null_by (of_integer (type_of types.now ty.0) f) false }
{
    match types.term(ty) {
        Term::Bool | Term::Integer { .. } => None,
        _ => Some(false),
    }
}

/// Whether a value is a null constant (C11 6.3.2.3p3): a number 0, or a null value of the type `void *`. None where an operator,
/// a choice or a conversion would have to be computed for it.
#[tactic(auto, using(crate::proofs::Nulls::nulls))]
pub fn null_of(unit: &Unit, node: u32) -> Option<bool>
    requires ready { IsReady unit.now }
    requires node { node < length unit.now.nodes.items }
    ensures { result ≡ spec.null_known (core_at unit.now node) }
{
    let ty = type_of_node(unit, node);
    match kind_of_node(unit, node) {
        NodeKind::Number(n) => Some(n.get() == 0),
        NodeKind::NullValue => Some(is_void_pointer(&unit.types, ty)),
        NodeKind::Arith(_) => computed_null(&unit.types, ty),
        NodeKind::Choose => computed_null(&unit.types, ty),
        NodeKind::Convert => computed_null(&unit.types, ty),
        _ => Some(false),
    }
}

/// The null value of a type, in place of a null constant.
pub fn null_value(alloc: Global, unit: &mut Unit, ty: TypeId, node: u32) -> Result<u32, CheckFault>
    requires ready { IsReady unit.old }
    requires ty { ty.0 < length unit.old.types.terms }
    requires node { node < length unit.old.nodes.items }
    ensures ready { IsReady unit.new }
    ensures builds { Builds unit.old unit.new }
    ensures within { IfOk result (λ i. i < length unit.new.nodes.items) }
    ensures made { Made unit.new result (Fits (null_spec (type_of unit.old.types ty.0) (core_at unit.old node))) }
{
    let place = place_of_node(unit, node);
    push_leaf(alloc, unit, NodeKind::NullValue, place, ty)
}

/// A value converted to another type.
pub fn converted(alloc: Global, unit: &mut Unit, ty: TypeId, node: u32) -> Result<u32, CheckFault>
    requires ready { IsReady unit.old }
    requires ty { ty.0 < length unit.old.types.terms }
    requires node { node < length unit.old.nodes.items }
    ensures ready { IsReady unit.new }
    ensures builds { Builds unit.old unit.new }
    ensures within { IfOk result (λ i. i < length unit.new.nodes.items) }
    ensures made { Made unit.new result (Fits (converted_spec (type_of unit.old.types ty.0) (core_at unit.old node))) }
{
    let place = place_of_node(unit, node);
    push_over(alloc, unit, NodeKind::Convert, place, ty, node)
}

/// The second value as a null value of the type of the first.
pub fn null_second(alloc: Global, unit: &mut Unit, a: u32, b: u32) -> Result<(u32, u32), CheckFault>
    requires ready { IsReady unit.old }
    requires a { a < length unit.old.nodes.items }
    requires b { b < length unit.old.nodes.items }
    ensures ready { IsReady unit.new }
    ensures builds { Builds unit.old unit.new }
    ensures within { IfOk result (λ both. (both.0 < length unit.new.nodes.items) × (both.1 < length unit.new.nodes.items)) }
    ensures joined { BothGiven unit.new result
        (Fits (spec.pair (core_at unit.old a) (null_spec (ctype_of (core_at unit.old a)) (core_at unit.old b)))) }
{
    let ty = type_of_node(unit, a);
    let right = null_value(alloc, unit, ty, b)?;
    Ok((a, right))
}

/// The first value as a null value of the type of the second.
pub fn null_first(alloc: Global, unit: &mut Unit, a: u32, b: u32) -> Result<(u32, u32), CheckFault>
    requires ready { IsReady unit.old }
    requires a { a < length unit.old.nodes.items }
    requires b { b < length unit.old.nodes.items }
    ensures ready { IsReady unit.new }
    ensures builds { Builds unit.old unit.new }
    ensures within { IfOk result (λ both. (both.0 < length unit.new.nodes.items) × (both.1 < length unit.new.nodes.items)) }
    ensures joined { BothGiven unit.new result
        (Fits (spec.pair (null_spec (ctype_of (core_at unit.old b)) (core_at unit.old a)) (core_at unit.old b))) }
{
    let ty = type_of_node(unit, b);
    let left = null_value(alloc, unit, ty, a)?;
    Ok((left, b))
}

// The second value converted to the type of the first.
fn converted_second(
    alloc: Global,
    unit: &mut Unit,
    a: u32,
    b: u32,
) -> Result<(u32, u32), CheckFault>
    requires ready { IsReady unit.old }
    requires a { a < length unit.old.nodes.items }
    requires b { b < length unit.old.nodes.items }
    ensures ready { IsReady unit.new }
    ensures builds { Builds unit.old unit.new }
    ensures within { IfOk result (λ both. (both.0 < length unit.new.nodes.items) × (both.1 < length unit.new.nodes.items)) }
    ensures joined { BothGiven unit.new result
        (Fits (spec.pair (core_at unit.old a) (converted_spec (ctype_of (core_at unit.old a)) (core_at unit.old b)))) }
{
    let ty = type_of_node(unit, a);
    let right = converted(alloc, unit, ty, b)?;
    Ok((a, right))
}

// The first value converted to the type of the second.
fn converted_first(alloc: Global, unit: &mut Unit, a: u32, b: u32) -> Result<(u32, u32), CheckFault>
    requires ready { IsReady unit.old }
    requires a { a < length unit.old.nodes.items }
    requires b { b < length unit.old.nodes.items }
    ensures ready { IsReady unit.new }
    ensures builds { Builds unit.old unit.new }
    ensures within { IfOk result (λ both. (both.0 < length unit.new.nodes.items) × (both.1 < length unit.new.nodes.items)) }
    ensures joined { BothGiven unit.new result
        (Fits (spec.pair (converted_spec (ctype_of (core_at unit.old b)) (core_at unit.old a)) (core_at unit.old b))) }
{
    let ty = type_of_node(unit, b);
    let left = converted(alloc, unit, ty, a)?;
    Ok((left, b))
}

/// Two pointers of types that differ, neither of which is a null constant.
pub fn void_joined(
    alloc: Global,
    unit: &mut Unit,
    at: u32,
    a: u32,
    b: u32,
    x: TypeId,
    y: TypeId,
) -> Result<(u32, u32), CheckFault>
    requires ready { IsReady unit.old }
    requires a { a < length unit.old.nodes.items }
    requires b { b < length unit.old.nodes.items }
    requires x { x.0 < length unit.old.types.terms }
    requires y { y.0 < length unit.old.types.terms }
    ensures ready { IsReady unit.new }
    ensures builds { Builds unit.old unit.new }
    ensures within { IfOk result (λ both. (both.0 < length unit.new.nodes.items) × (both.1 < length unit.new.nodes.items)) }
    ensures joined { BothGiven unit.new result (spec.void_joined at (core_at unit.old a) (core_at unit.old b)
        (type_of unit.old.types x.0) (type_of unit.old.types y.0)) }
{
    if is_void(&unit.types, y) && is_object(&unit.types, x) {
        return converted_first(alloc, unit, a, b);
    }
    if is_void(&unit.types, x) && is_object(&unit.types, y) {
        return converted_second(alloc, unit, a, b);
    }
    Err(CheckFault::BadOperand(at))
}

// Two pointers of types that differ, the second of which is no null constant.
fn left_joined(
    alloc: Global,
    unit: &mut Unit,
    at: u32,
    a: u32,
    b: u32,
    x: TypeId,
    y: TypeId,
    null: bool,
) -> Result<(u32, u32), CheckFault>
    requires ready { IsReady unit.old }
    requires a { a < length unit.old.nodes.items }
    requires b { b < length unit.old.nodes.items }
    requires x { x.0 < length unit.old.types.terms }
    requires y { y.0 < length unit.old.types.terms }
    ensures ready { IsReady unit.new }
    ensures builds { Builds unit.old unit.new }
    ensures within { IfOk result (λ both. (both.0 < length unit.new.nodes.items) × (both.1 < length unit.new.nodes.items)) }
    ensures joined { BothGiven unit.new result (spec.left_joined at (core_at unit.old a) (core_at unit.old b)
        (type_of unit.old.types x.0) (type_of unit.old.types y.0) null) }
{
    if null {
        return null_first(alloc, unit, a, b);
    }
    void_joined(alloc, unit, at, a, b, x, y)
}

// Two pointers of types that differ.
fn right_joined(
    alloc: Global,
    unit: &mut Unit,
    at: u32,
    a: u32,
    b: u32,
    x: TypeId,
    y: TypeId,
    null: bool,
) -> Result<(u32, u32), CheckFault>
    requires ready { IsReady unit.old }
    requires a { a < length unit.old.nodes.items }
    requires b { b < length unit.old.nodes.items }
    requires x { x.0 < length unit.old.types.terms }
    requires y { y.0 < length unit.old.types.terms }
    ensures ready { IsReady unit.new }
    ensures builds { Builds unit.old unit.new }
    ensures within { IfOk result (λ both. (both.0 < length unit.new.nodes.items) × (both.1 < length unit.new.nodes.items)) }
    ensures joined { BothGiven unit.new result (spec.right_joined at (core_at unit.old a) (core_at unit.old b)
        (type_of unit.old.types x.0) (type_of unit.old.types y.0) null) }
{
    if null {
        return null_second(alloc, unit, a, b);
    }
    match null_of(unit, a) {
        Some(first) => left_joined(alloc, unit, at, a, b, x, y, first),
        None => Err(CheckFault::Unsupported(Kind::NotBuilt, at)),
    }
}

// Two pointers to types that differ.
fn apart_joined(
    alloc: Global,
    unit: &mut Unit,
    at: u32,
    a: u32,
    b: u32,
    x: TypeId,
    y: TypeId,
) -> Result<(u32, u32), CheckFault>
    requires ready { IsReady unit.old }
    requires a { a < length unit.old.nodes.items }
    requires b { b < length unit.old.nodes.items }
    requires x { x.0 < length unit.old.types.terms }
    requires y { y.0 < length unit.old.types.terms }
    ensures ready { IsReady unit.new }
    ensures builds { Builds unit.old unit.new }
    ensures within { IfOk result (λ both. (both.0 < length unit.new.nodes.items) × (both.1 < length unit.new.nodes.items)) }
    ensures joined { BothGiven unit.new result (spec.apart_joined at (core_at unit.old a) (core_at unit.old b)
        (type_of unit.old.types x.0) (type_of unit.old.types y.0)) }
{
    match null_of(unit, b) {
        Some(null) => right_joined(alloc, unit, at, a, b, x, y, null),
        None => Err(CheckFault::Unsupported(Kind::NotBuilt, at)),
    }
}

// Two pointers to those types as operands of one type.
fn joined(
    alloc: Global,
    unit: &mut Unit,
    at: u32,
    a: u32,
    b: u32,
    x: TypeId,
    y: TypeId,
) -> Result<(u32, u32), CheckFault>
    requires ready { IsReady unit.old }
    requires a { a < length unit.old.nodes.items }
    requires b { b < length unit.old.nodes.items }
    requires x { x.0 < length unit.old.types.terms }
    requires y { y.0 < length unit.old.types.terms }
    ensures ready { IsReady unit.new }
    ensures builds { Builds unit.old unit.new }
    ensures within { IfOk result (λ both. (both.0 < length unit.new.nodes.items) × (both.1 < length unit.new.nodes.items)) }
    ensures joined { BothGiven unit.new result (spec.built_joined at (core_at unit.old a) (core_at unit.old b)
        (type_of unit.old.types x.0) (type_of unit.old.types y.0)) }
{
    if same_types(&unit.types, x, y) {
        return Ok((a, b));
    }
    apart_joined(alloc, unit, at, a, b, x, y)
}

// A pointer and an integer, which must be a null constant.
fn null_right(
    alloc: Global,
    unit: &mut Unit,
    at: u32,
    a: u32,
    b: u32,
) -> Result<(u32, u32), CheckFault>
    requires ready { IsReady unit.old }
    requires a { a < length unit.old.nodes.items }
    requires b { b < length unit.old.nodes.items }
    ensures ready { IsReady unit.new }
    ensures builds { Builds unit.old unit.new }
    ensures within { IfOk result (λ both. (both.0 < length unit.new.nodes.items) × (both.1 < length unit.new.nodes.items)) }
    ensures joined { BothGiven unit.new result (spec.built_null_right at (core_at unit.old a) (core_at unit.old b)) }
{
    match null_of(unit, b) {
        Some(true) => null_second(alloc, unit, a, b),
        Some(false) => Err(CheckFault::BadOperand(at)),
        None => Err(CheckFault::Unsupported(Kind::NotBuilt, at)),
    }
}

// An integer, which must be a null constant, and a pointer.
fn null_left(
    alloc: Global,
    unit: &mut Unit,
    at: u32,
    a: u32,
    b: u32,
) -> Result<(u32, u32), CheckFault>
    requires ready { IsReady unit.old }
    requires a { a < length unit.old.nodes.items }
    requires b { b < length unit.old.nodes.items }
    ensures ready { IsReady unit.new }
    ensures builds { Builds unit.old unit.new }
    ensures within { IfOk result (λ both. (both.0 < length unit.new.nodes.items) × (both.1 < length unit.new.nodes.items)) }
    ensures joined { BothGiven unit.new result (spec.built_null_left at (core_at unit.old a) (core_at unit.old b)) }
{
    match null_of(unit, a) {
        Some(true) => null_first(alloc, unit, a, b),
        Some(false) => Err(CheckFault::BadOperand(at)),
        None => Err(CheckFault::Unsupported(Kind::NotBuilt, at)),
    }
}

/// Pointers, or a pointer and a null constant, as operands of one type (C11 6.5.9p5, 6.5.15p6): two pointers of one type stay; a null
/// constant becomes the null value of the other one's type; beside a pointer to void, a pointer to an object type is converted to
/// `void *`. Anything else is `BadOperand`. Where it would have to be computed whether an integer is a null constant, the row isn't
/// built.
pub fn pointers_joined(
    alloc: Global,
    unit: &mut Unit,
    at: u32,
    a: u32,
    b: u32,
    x: Operand,
    y: Operand,
) -> Result<(u32, u32), CheckFault>
    requires ready { IsReady unit.old }
    requires a { a < length unit.old.nodes.items }
    requires b { b < length unit.old.nodes.items }
    requires x { IsWithin unit.old.types x }
    requires y { IsWithin unit.old.types y }
    ensures ready { IsReady unit.new }
    ensures builds { Builds unit.old unit.new }
    ensures within { IfOk result (λ both. (both.0 < length unit.new.nodes.items) × (both.1 < length unit.new.nodes.items)) }
    ensures joined { BothGiven unit.new result (spec.built_pointers_joined at (core_at unit.old a) (core_at unit.old b)
        (sort_seen unit.old.types x) (sort_seen unit.old.types y)) }
{
    match x {
        Operand::Whole => match y {
            Operand::Address(_) => null_left(alloc, unit, at, a, b),
            Operand::Whole => Err(CheckFault::BadOperand(at)),
            Operand::Aggregate(_) => Err(CheckFault::BadOperand(at)),
            Operand::Other => Err(CheckFault::BadOperand(at)),
        },
        Operand::Address(to) => match y {
            Operand::Whole => null_right(alloc, unit, at, a, b),
            Operand::Address(other) => joined(alloc, unit, at, a, b, to, other),
            Operand::Aggregate(_) => Err(CheckFault::BadOperand(at)),
            Operand::Other => Err(CheckFault::BadOperand(at)),
        },
        Operand::Aggregate(_) => Err(CheckFault::BadOperand(at)),
        Operand::Other => Err(CheckFault::BadOperand(at)),
    }
}

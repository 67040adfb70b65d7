// Assignments and casts (C11 6.5.4, 6.5.16).
#![tactic(auto, using(core_nodes::proofs::IntegerTypes::integers))]

ghost use Rattle.std.specs.Prelude.{◌≡◌, ◌<◌, length, IfOk};
ghost use Rattle.c_types.specs.Table.{type_of};
ghost use Rattle.c_consts.specs.Core.{ctype_of};
ghost use Rattle.c_senses.specs.World.{World};
ghost use Rattle.c_senses.specs.Objects as spec;
ghost use Rattle.core_nodes.specs.Standing.{core_at, IsReady, Builds, Made, Knows};
ghost use Rattle.core_nodes.specs.Sorts.{sort_seen, IsWithin};
ghost use Rattle.c_conversions.specs.Constants.{HasRows};
ghost use Rattle.value_rows.specs.Assignments.{assigned_to, assigned_from, updated_from, cast_to, assignment_by};

use c_conversions::table::conversion;
use c_conversions::values::value;
use c_operators::operators::sort_of_node;
use c_operators::updates::update_row;
use c_types::term::{Term, TypeId};
use core_nodes::CheckFault;
use core_nodes::reads::{is_place, type_of_node};
use core_nodes::sorts::{Operand, is_list};
use core_nodes::trees::push_over_two;
use core_nodes::values::value as value_node;
use core_tree::node::{NodeKind, Op, Unit};
use pta_base::{Kind, Place};
use std::alloc::Global;

// Whether a place of that sort takes a value.
fn is_assigned(unit: &Unit, sort: Operand) -> bool
    requires { IsWithin unit.now.types sort }
    ensures { (w : World) → Knows w unit.now → result ≡ spec.is_assigned w (sort_seen unit.now.types sort) }
{
    match sort {
        Operand::Whole => true,
        Operand::Address(_) => true,
        Operand::Aggregate(tag) => unit.types.members(tag).is_some(),
        Operand::Other => false,
    }
}

// A place that takes a value, which is converted to its type.
fn assigned_to(
    alloc: Global,
    unit: &mut Unit,
    place: Place,
    at: u32,
    p: u32,
    v: u32,
) -> Result<u32, CheckFault>
    requires ready { IsReady unit.old }
    requires p { p < length unit.old.nodes.items }
    requires v { v < length unit.old.nodes.items }
    requires rows { HasRows (core_at unit.old v) }
    ensures ready { IsReady unit.new }
    ensures builds { Builds unit.old unit.new }
    ensures within { IfOk result (λ i. i < length unit.new.nodes.items) }
    ensures made { (w : World) →
        Knows w unit.old → Made unit.new result (assigned_to w place at (core_at unit.old p) (core_at unit.old v)) }
{
    let ty = type_of_node(unit, p);
    let x = conversion(alloc, unit, false, at, v, ty)?;
    push_over_two(alloc, unit, NodeKind::Assign, place, ty, p, x)
}

/// A place that takes a value (C11 6.5.16.1): the place is of a scalar type, a variadic list, or a structure or union that is complete,
/// else it is `BadOperand`; the value is converted to its type, and refused as the table of conversions says. The nodes of the value's
/// constants stand in their rows.
pub fn assign_row(
    alloc: Global,
    unit: &mut Unit,
    place: Place,
    at: u32,
    p: u32,
    v: u32,
) -> Result<u32, CheckFault>
    requires ready { IsReady unit.old }
    requires p { p < length unit.old.nodes.items }
    requires v { v < length unit.old.nodes.items }
    requires rows { HasRows (core_at unit.old v) }
    ensures ready { IsReady unit.new }
    ensures builds { Builds unit.old unit.new }
    ensures within { IfOk result (λ i. i < length unit.new.nodes.items) }
    ensures made { (w : World) →
        Knows w unit.old → Made unit.new result (spec.assign_row w place at (core_at unit.old p) (core_at unit.old v)) }
{
    if !is_place(unit, p) {
        return Err(CheckFault::BadOperand(at));
    }
    let sort = sort_of_node(unit, p);
    if !is_assigned(unit, sort) && !is_list(&unit.types, type_of_node(unit, p)) {
        return Err(CheckFault::BadOperand(at));
    }
    assigned_to(alloc, unit, place, at, p, v)
}

// The value of an expression, cast to a type that is not floating.
fn cast_to(alloc: Global, unit: &mut Unit, at: u32, x: u32, ty: TypeId) -> Result<u32, CheckFault>
    requires ready { IsReady unit.old }
    requires x { x < length unit.old.nodes.items }
    requires rows { HasRows (core_at unit.old x) }
    requires ty { ty.0 < length unit.old.types.terms }
    ensures ready { IsReady unit.new }
    ensures builds { Builds unit.old unit.new }
    ensures within { IfOk result (λ i. i < length unit.new.nodes.items) }
    ensures made { (w : World) →
        Knows w unit.old →
        Made unit.new result (cast_to w at (core_at unit.old x) (type_of unit.old.types ty.0)) }
{
    let v = value(alloc, unit, at, x)?;
    conversion(alloc, unit, true, at, v, ty)
}

/// A cast (C11 6.5.4), for the row of the syntax node `at`: to a floating type it is `Floating`, whatever else is wrong with it; else the
/// expression's value is converted by the table of conversions, with the rows that are a cast's alone. The nodes of the expression's
/// constants stand in their rows.
pub fn cast_row(
    alloc: Global,
    unit: &mut Unit,
    at: u32,
    x: u32,
    ty: TypeId,
) -> Result<u32, CheckFault>
    requires ready { IsReady unit.old }
    requires x { x < length unit.old.nodes.items }
    requires rows { HasRows (core_at unit.old x) }
    requires ty { ty.0 < length unit.old.types.terms }
    ensures ready { IsReady unit.new }
    ensures builds { Builds unit.old unit.new }
    ensures within { IfOk result (λ i. i < length unit.new.nodes.items) }
    ensures made { (w : World) →
        Knows w unit.old → Made unit.new result (spec.cast_row w at (core_at unit.old x) (type_of unit.old.types ty.0)) }
{
    match unit.types.term(ty) {
        Term::Floating => Err(CheckFault::Unsupported(Kind::Floating, at)),
        _ => cast_to(alloc, unit, at, x, ty),
    }
}

const SIGN_ASSIGN: u8 = 34;

const SIGN_MULTIPLY_ASSIGN: u8 = 35;

const SIGN_DIVIDE_ASSIGN: u8 = 36;

const SIGN_REMAINDER_ASSIGN: u8 = 37;

const SIGN_ADD_ASSIGN: u8 = 38;

const SIGN_SUBTRACT_ASSIGN: u8 = 39;

const SIGN_SHIFT_LEFT_ASSIGN: u8 = 40;

const SIGN_SHIFT_RIGHT_ASSIGN: u8 = 41;

const SIGN_AND_ASSIGN: u8 = 42;

const SIGN_XOR_ASSIGN: u8 = 43;

const SIGN_OR_ASSIGN: u8 = 44;

// The operator of an assignment that computes, by its punctuator.
fn assigned_op(sign: u8) -> Option<Op>
    ensures { result ≡ spec.assigned_op sign }
{
    match sign {
        SIGN_MULTIPLY_ASSIGN => Some(Op::Multiply),
        SIGN_DIVIDE_ASSIGN => Some(Op::Divide),
        SIGN_REMAINDER_ASSIGN => Some(Op::Remainder),
        SIGN_ADD_ASSIGN => Some(Op::Plus),
        SIGN_SUBTRACT_ASSIGN => Some(Op::Minus),
        SIGN_SHIFT_LEFT_ASSIGN => Some(Op::ShiftLeft),
        SIGN_SHIFT_RIGHT_ASSIGN => Some(Op::ShiftRight),
        SIGN_AND_ASSIGN => Some(Op::And),
        SIGN_XOR_ASSIGN => Some(Op::Xor),
        SIGN_OR_ASSIGN => Some(Op::Or),
        _ => None,
    }
}

// A place that takes the value of an expression.
fn assigned_from(
    alloc: Global,
    unit: &mut Unit,
    place: Place,
    at: u32,
    p: u32,
    b: u32,
) -> Result<u32, CheckFault>
    requires ready { IsReady unit.old }
    requires p { p < length unit.old.nodes.items }
    requires b { b < length unit.old.nodes.items }
    requires rows { HasRows (core_at unit.old b) }
    ensures ready { IsReady unit.new }
    ensures builds { Builds unit.old unit.new }
    ensures within { IfOk result (λ i. i < length unit.new.nodes.items) }
    ensures made { (w : World) →
        Knows w unit.old →
        Made unit.new result (assigned_from w place at (core_at unit.old p) (core_at unit.old b)) }
{
    let v = value(alloc, unit, at, b)?;
    assign_row(alloc, unit, place, at, p, v)
}

// A place that an operator and the value of an expression change.
fn updated_from(
    alloc: Global,
    unit: &mut Unit,
    op: Op,
    place: Place,
    at: u32,
    p: u32,
    b: u32,
) -> Result<u32, CheckFault>
    requires ready { IsReady unit.old }
    requires p { p < length unit.old.nodes.items }
    requires b { b < length unit.old.nodes.items }
    ensures ready { IsReady unit.new }
    ensures builds { Builds unit.old unit.new }
    ensures within { IfOk result (λ i. i < length unit.new.nodes.items) }
    ensures made { (w : World) →
        Knows w unit.old →
        Made unit.new result (updated_from w op place at (core_at unit.old p) (core_at unit.old b)) }
{
    let v = value_node(alloc, unit, at, b)?;
    update_row(alloc, unit, op, false, place, at, p, v)
}

/// An assignment by its punctuator, over a place and an expression whose value is taken (C11 6.5.16): `=` as `assign_row` says, and the
/// ten that compute as `update_row` of an operator says; any other punctuator is `BadOperand`. The nodes of the expression's constants
/// stand in their rows.
pub fn assignment(
    alloc: Global,
    unit: &mut Unit,
    sign: u8,
    place: Place,
    at: u32,
    p: u32,
    b: u32,
) -> Result<u32, CheckFault>
    requires ready { IsReady unit.old }
    requires p { p < length unit.old.nodes.items }
    requires b { b < length unit.old.nodes.items }
    requires rows { HasRows (core_at unit.old b) }
    ensures ready { IsReady unit.new }
    ensures builds { Builds unit.old unit.new }
    ensures within { IfOk result (λ i. i < length unit.new.nodes.items) }
    ensures made { (w : World) →
        Knows w unit.old →
        Made unit.new result (assignment_by w place at (core_at unit.old p) (core_at unit.old b) sign) }
{
    if sign == SIGN_ASSIGN {
        return assigned_from(alloc, unit, place, at, p, b);
    }
    match assigned_op(sign) {
        Some(op) => updated_from(alloc, unit, op, place, at, p, b),
        None => Err(CheckFault::BadOperand(at)),
    }
}

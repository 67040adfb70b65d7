// Operators over two values (C11 6.5.5 to 6.5.14).
#![tactic(auto, using(core_nodes::proofs::IntegerTypes::integers))]

ghost use Rattle.std.specs.Prelude.{◌≡◌, ◌<◌, length, IsOkUnless, IfOk};
ghost use Rattle.c_types.specs.Table.{type_of};
ghost use Rattle.c_consts.specs.Core.{ctype_of};
ghost use Rattle.c_senses.specs.Given.{Fits};
ghost use Rattle.c_senses.specs.World.{World};
ghost use Rattle.c_senses.specs.Conversions.{operand_of as operand_sort, is_scalar as is_scalar_sort};
ghost use Rattle.c_senses.specs.Operators as spec;
ghost use Rattle.c_operators.specs.Between.{built_equated, built_equality, built_between};
ghost use Rattle.core_nodes.specs.Standing.{core_at, IsReady, Builds, Made, Knows};
ghost use Rattle.core_nodes.specs.Sorts.{sort_seen, IsWithin};
ghost use Rattle.c_operators.specs.Seen.{operator_seen};

use crate::joined::pointers_joined;
use c_types::term::{Term, TypeId};
use core_nodes::CheckFault;
use core_nodes::integers::{arithmetic, compared, comparison, shifted};
use core_nodes::reads::type_of_node;
use core_nodes::sorts::{Operand, has_size, is_scalar, operand_of, same_types};
use core_nodes::trees::{add_type, int_type, push_leaf, push_over_three, push_over_two};
use core_tree::held::Number;
use core_tree::node::{NodeKind, Op, Unit};
use pta_base::Place;
use std::alloc::Global;

/// What an operator between two operands does.
#[derive(Clone, Copy, Debug, PartialEq, Eq)]
pub enum Operator {
    Numeric(Op),
    Shifting(Op),
    Adding,
    Subtracting,
    Ordering(Op),
    Equating(Op),
    BothTrue,
    EitherTrue,
    Following,
    NoOperator,
}

// Two whole numbers.
fn numeric_row(
    alloc: Global,
    unit: &mut Unit,
    op: Op,
    place: Place,
    at: u32,
    a: u32,
    b: u32,
    x: Operand,
    y: Operand,
) -> Result<u32, CheckFault>
    requires ready { IsReady unit.old }
    requires a { a < length unit.old.nodes.items }
    requires b { b < length unit.old.nodes.items }
    ensures ready { IsReady unit.new }
    ensures builds { Builds unit.old unit.new }
    ensures within { IfOk result (λ i. i < length unit.new.nodes.items) }
    ensures made { (w : World) →
        Knows w unit.old →
        Made unit.new result (spec.numeric_row w op place at (core_at unit.old a) (core_at unit.old b)
        (sort_seen unit.old.types x) (sort_seen unit.old.types y)) }
{
    match x {
        Operand::Whole => match y {
            Operand::Whole => arithmetic(alloc, unit, op, place, a, b),
            Operand::Address(_) => Err(CheckFault::BadOperand(at)),
            Operand::Aggregate(_) => Err(CheckFault::BadOperand(at)),
            Operand::Other => Err(CheckFault::BadOperand(at)),
        },
        Operand::Address(_) => Err(CheckFault::BadOperand(at)),
        Operand::Aggregate(_) => Err(CheckFault::BadOperand(at)),
        Operand::Other => Err(CheckFault::BadOperand(at)),
    }
}

// A whole number shifted by another.
fn shift_row(
    alloc: Global,
    unit: &mut Unit,
    op: Op,
    place: Place,
    at: u32,
    a: u32,
    b: u32,
    x: Operand,
    y: Operand,
) -> Result<u32, CheckFault>
    requires ready { IsReady unit.old }
    requires a { a < length unit.old.nodes.items }
    requires b { b < length unit.old.nodes.items }
    ensures ready { IsReady unit.new }
    ensures builds { Builds unit.old unit.new }
    ensures within { IfOk result (λ i. i < length unit.new.nodes.items) }
    ensures made { (w : World) →
        Knows w unit.old →
        Made unit.new result (spec.shift_row w op place at (core_at unit.old a) (core_at unit.old b)
        (sort_seen unit.old.types x) (sort_seen unit.old.types y)) }
{
    match x {
        Operand::Whole => match y {
            Operand::Whole => shifted(alloc, unit, op, place, a, b),
            Operand::Address(_) => Err(CheckFault::BadOperand(at)),
            Operand::Aggregate(_) => Err(CheckFault::BadOperand(at)),
            Operand::Other => Err(CheckFault::BadOperand(at)),
        },
        Operand::Address(_) => Err(CheckFault::BadOperand(at)),
        Operand::Aggregate(_) => Err(CheckFault::BadOperand(at)),
        Operand::Other => Err(CheckFault::BadOperand(at)),
    }
}

/// A pointer moved by an integer.
pub fn moved(
    alloc: Global,
    unit: &mut Unit,
    minus: bool,
    place: Place,
    at: u32,
    pointer: u32,
    by: u32,
    to: TypeId,
) -> Result<u32, CheckFault>
    requires ready { IsReady unit.old }
    requires pointer { pointer < length unit.old.nodes.items }
    requires by { by < length unit.old.nodes.items }
    requires to { to.0 < length unit.old.types.terms }
    ensures ready { IsReady unit.new }
    ensures builds { Builds unit.old unit.new }
    ensures within { IfOk result (λ i. i < length unit.new.nodes.items) }
    ensures made { (w : World) →
        Knows w unit.old →
        Made unit.new result
        (spec.moved w minus place at (core_at unit.old pointer) (core_at unit.old by) (type_of unit.old.types to.0)) }
{
    if !has_size(unit, to) {
        return Err(CheckFault::BadOperand(at));
    }
    let ty = type_of_node(unit, pointer);
    push_over_two(
        alloc,
        unit,
        NodeKind::PointerAdd { minus },
        place,
        ty,
        pointer,
        by,
    )
}

// The difference of two pointers of one type, which is a long.
fn difference(
    alloc: Global,
    unit: &mut Unit,
    place: Place,
    a: u32,
    b: u32,
) -> Result<u32, CheckFault>
    requires ready { IsReady unit.old }
    requires a { a < length unit.old.nodes.items }
    requires b { b < length unit.old.nodes.items }
    ensures ready { IsReady unit.new }
    ensures builds { Builds unit.old unit.new }
    ensures within { IfOk result (λ i. i < length unit.new.nodes.items) }
    ensures made { Made unit.new result (Fits (spec.difference place (core_at unit.old a) (core_at unit.old b))) }
{
    let long = add_type(
        unit,
        Term::Integer {
            size: 8,
            rank: 5,
            signed: true,
        },
    )?;
    push_over_two(alloc, unit, NodeKind::Arith(Op::Minus), place, long, a, b)
}

// Two pointers that are compared, which have one type.
fn compared_pointers(
    alloc: Global,
    unit: &mut Unit,
    op: Op,
    place: Place,
    at: u32,
    a: u32,
    b: u32,
    x: TypeId,
    y: TypeId,
) -> Result<u32, CheckFault>
    requires ready { IsReady unit.old }
    requires a { a < length unit.old.nodes.items }
    requires b { b < length unit.old.nodes.items }
    requires x { x.0 < length unit.old.types.terms }
    requires y { y.0 < length unit.old.types.terms }
    ensures ready { IsReady unit.new }
    ensures builds { Builds unit.old unit.new }
    ensures within { IfOk result (λ i. i < length unit.new.nodes.items) }
    ensures made { Made unit.new result
        (spec.pointers_compared op place at (core_at unit.old a) (core_at unit.old b)
        (type_of unit.old.types x.0) (type_of unit.old.types y.0)) }
{
    if !same_types(&unit.types, x, y) {
        return Err(CheckFault::BadOperand(at));
    }
    compared(alloc, unit, op, place, a, b)
}

// Two pointers that are subtracted, which have one type.
fn subtracted_pointers(
    alloc: Global,
    unit: &mut Unit,
    place: Place,
    at: u32,
    a: u32,
    b: u32,
    x: TypeId,
    y: TypeId,
) -> Result<u32, CheckFault>
    requires ready { IsReady unit.old }
    requires a { a < length unit.old.nodes.items }
    requires b { b < length unit.old.nodes.items }
    requires x { x.0 < length unit.old.types.terms }
    requires y { y.0 < length unit.old.types.terms }
    ensures ready { IsReady unit.new }
    ensures builds { Builds unit.old unit.new }
    ensures within { IfOk result (λ i. i < length unit.new.nodes.items) }
    ensures made { Made unit.new result
        (spec.pointers_subtracted place at (core_at unit.old a) (core_at unit.old b)
        (type_of unit.old.types x.0) (type_of unit.old.types y.0)) }
{
    if !same_types(&unit.types, x, y) {
        return Err(CheckFault::BadOperand(at));
    }
    difference(alloc, unit, place, a, b)
}

// A sum: of two numbers, or a pointer moved by a number.
fn plus_row(
    alloc: Global,
    unit: &mut Unit,
    place: Place,
    at: u32,
    a: u32,
    b: u32,
    x: Operand,
    y: Operand,
) -> Result<u32, CheckFault>
    requires ready { IsReady unit.old }
    requires a { a < length unit.old.nodes.items }
    requires b { b < length unit.old.nodes.items }
    requires x { IsWithin unit.old.types x }
    requires y { IsWithin unit.old.types y }
    ensures ready { IsReady unit.new }
    ensures builds { Builds unit.old unit.new }
    ensures within { IfOk result (λ i. i < length unit.new.nodes.items) }
    ensures made { (w : World) →
        Knows w unit.old →
        Made unit.new result (spec.plus_row w place at (core_at unit.old a) (core_at unit.old b)
        (sort_seen unit.old.types x) (sort_seen unit.old.types y)) }
{
    match x {
        Operand::Whole => match y {
            Operand::Whole => arithmetic(alloc, unit, Op::Plus, place, a, b),
            Operand::Address(to) => moved(alloc, unit, false, place, at, b, a, to),
            Operand::Aggregate(_) => Err(CheckFault::BadOperand(at)),
            Operand::Other => Err(CheckFault::BadOperand(at)),
        },
        Operand::Address(to) => match y {
            Operand::Whole => moved(alloc, unit, false, place, at, a, b, to),
            Operand::Address(_) => Err(CheckFault::BadOperand(at)),
            Operand::Aggregate(_) => Err(CheckFault::BadOperand(at)),
            Operand::Other => Err(CheckFault::BadOperand(at)),
        },
        Operand::Aggregate(_) => Err(CheckFault::BadOperand(at)),
        Operand::Other => Err(CheckFault::BadOperand(at)),
    }
}

// A difference: of two numbers, a pointer moved back by a number, or of two pointers.
fn minus_row(
    alloc: Global,
    unit: &mut Unit,
    place: Place,
    at: u32,
    a: u32,
    b: u32,
    x: Operand,
    y: Operand,
) -> Result<u32, CheckFault>
    requires ready { IsReady unit.old }
    requires a { a < length unit.old.nodes.items }
    requires b { b < length unit.old.nodes.items }
    requires x { IsWithin unit.old.types x }
    requires y { IsWithin unit.old.types y }
    ensures ready { IsReady unit.new }
    ensures builds { Builds unit.old unit.new }
    ensures within { IfOk result (λ i. i < length unit.new.nodes.items) }
    ensures made { (w : World) →
        Knows w unit.old →
        Made unit.new result (spec.minus_row w place at (core_at unit.old a) (core_at unit.old b)
        (sort_seen unit.old.types x) (sort_seen unit.old.types y)) }
{
    match x {
        Operand::Whole => match y {
            Operand::Whole => arithmetic(alloc, unit, Op::Minus, place, a, b),
            Operand::Address(_) => Err(CheckFault::BadOperand(at)),
            Operand::Aggregate(_) => Err(CheckFault::BadOperand(at)),
            Operand::Other => Err(CheckFault::BadOperand(at)),
        },
        Operand::Address(to) => match y {
            Operand::Whole => moved(alloc, unit, true, place, at, a, b, to),
            Operand::Address(other) => subtracted_pointers(alloc, unit, place, at, a, b, to, other),
            Operand::Aggregate(_) => Err(CheckFault::BadOperand(at)),
            Operand::Other => Err(CheckFault::BadOperand(at)),
        },
        Operand::Aggregate(_) => Err(CheckFault::BadOperand(at)),
        Operand::Other => Err(CheckFault::BadOperand(at)),
    }
}

// Two numbers or two pointers of one type in order.
fn order_row(
    alloc: Global,
    unit: &mut Unit,
    op: Op,
    place: Place,
    at: u32,
    a: u32,
    b: u32,
    x: Operand,
    y: Operand,
) -> Result<u32, CheckFault>
    requires ready { IsReady unit.old }
    requires a { a < length unit.old.nodes.items }
    requires b { b < length unit.old.nodes.items }
    requires x { IsWithin unit.old.types x }
    requires y { IsWithin unit.old.types y }
    ensures ready { IsReady unit.new }
    ensures builds { Builds unit.old unit.new }
    ensures within { IfOk result (λ i. i < length unit.new.nodes.items) }
    ensures made { (w : World) →
        Knows w unit.old →
        Made unit.new result (spec.order_row w op place at (core_at unit.old a) (core_at unit.old b)
        (sort_seen unit.old.types x) (sort_seen unit.old.types y)) }
{
    match x {
        Operand::Whole => match y {
            Operand::Whole => comparison(alloc, unit, op, place, a, b),
            Operand::Address(_) => Err(CheckFault::BadOperand(at)),
            Operand::Aggregate(_) => Err(CheckFault::BadOperand(at)),
            Operand::Other => Err(CheckFault::BadOperand(at)),
        },
        Operand::Address(to) => match y {
            Operand::Whole => Err(CheckFault::BadOperand(at)),
            Operand::Address(other) => compared_pointers(
                alloc, unit, op, place, at, a, b, to, other,
            ),
            Operand::Aggregate(_) => Err(CheckFault::BadOperand(at)),
            Operand::Other => Err(CheckFault::BadOperand(at)),
        },
        Operand::Aggregate(_) => Err(CheckFault::BadOperand(at)),
        Operand::Other => Err(CheckFault::BadOperand(at)),
    }
}

// Two values that are equated after they were made operands of one type.
fn equated(
    alloc: Global,
    unit: &mut Unit,
    op: Op,
    place: Place,
    at: u32,
    a: u32,
    b: u32,
    x: Operand,
    y: Operand,
) -> Result<u32, CheckFault>
    requires ready { IsReady unit.old }
    requires a { a < length unit.old.nodes.items }
    requires b { b < length unit.old.nodes.items }
    requires x { IsWithin unit.old.types x }
    requires y { IsWithin unit.old.types y }
    ensures ready { IsReady unit.new }
    ensures builds { Builds unit.old unit.new }
    ensures within { IfOk result (λ i. i < length unit.new.nodes.items) }
    ensures made { Made unit.new result
        (built_equated op place at (core_at unit.old a) (core_at unit.old b)
        (sort_seen unit.old.types x) (sort_seen unit.old.types y)) }
{
    match pointers_joined(alloc, unit, at, a, b, x, y) {
        Ok((left, right)) => compared(alloc, unit, op, place, left, right),
        Err(fault) => Err(fault),
    }
}

// Two numbers, two pointers, or a pointer and a null constant that are equated.
fn equality_row(
    alloc: Global,
    unit: &mut Unit,
    op: Op,
    place: Place,
    at: u32,
    a: u32,
    b: u32,
    x: Operand,
    y: Operand,
) -> Result<u32, CheckFault>
    requires ready { IsReady unit.old }
    requires a { a < length unit.old.nodes.items }
    requires b { b < length unit.old.nodes.items }
    requires x { IsWithin unit.old.types x }
    requires y { IsWithin unit.old.types y }
    ensures ready { IsReady unit.new }
    ensures builds { Builds unit.old unit.new }
    ensures within { IfOk result (λ i. i < length unit.new.nodes.items) }
    ensures made { (w : World) →
        Knows w unit.old →
        Made unit.new result (built_equality w op place at (core_at unit.old a) (core_at unit.old b)
        (sort_seen unit.old.types x) (sort_seen unit.old.types y)) }
{
    match x {
        Operand::Whole => match y {
            Operand::Whole => comparison(alloc, unit, op, place, a, b),
            Operand::Address(_) => equated(alloc, unit, op, place, at, a, b, x, y),
            Operand::Aggregate(_) => Err(CheckFault::BadOperand(at)),
            Operand::Other => Err(CheckFault::BadOperand(at)),
        },
        Operand::Address(_) => equated(alloc, unit, op, place, at, a, b, x, y),
        Operand::Aggregate(_) => Err(CheckFault::BadOperand(at)),
        Operand::Other => Err(CheckFault::BadOperand(at)),
    }
}

// A value after another one, which is let go.
fn following(
    alloc: Global,
    unit: &mut Unit,
    place: Place,
    a: u32,
    b: u32,
) -> Result<u32, CheckFault>
    requires ready { IsReady unit.old }
    requires a { a < length unit.old.nodes.items }
    requires b { b < length unit.old.nodes.items }
    ensures ready { IsReady unit.new }
    ensures builds { Builds unit.old unit.new }
    ensures within { IfOk result (λ i. i < length unit.new.nodes.items) }
    ensures made { Made unit.new result (Fits (spec.sequence place (core_at unit.old a) (core_at unit.old b))) }
{
    let ty = type_of_node(unit, b);
    push_over_two(alloc, unit, NodeKind::Sequence, place, ty, a, b)
}

/// The number n of type int.
pub fn int_number(alloc: Global, unit: &mut Unit, place: Place, n: u8) -> Result<u32, CheckFault>
    requires ready { IsReady unit.old }
    ensures ready { IsReady unit.new }
    ensures builds { Builds unit.old unit.new }
    ensures within { IfOk result (λ i. i < length unit.new.nodes.items) }
    ensures made { Made unit.new result (Fits (spec.number_core n place)) }
{
    let int = int_type(unit)?;
    push_leaf(
        alloc,
        unit,
        NodeKind::Number(Number::of(i128::from(n))),
        place,
        int,
    )
}

// The int 1 where a value isn't zero or null, else 0.
fn truth(alloc: Global, unit: &mut Unit, place: Place, b: u32) -> Result<u32, CheckFault>
    requires ready { IsReady unit.old }
    requires b { b < length unit.old.nodes.items }
    ensures ready { IsReady unit.new }
    ensures builds { Builds unit.old unit.new }
    ensures within { IfOk result (λ i. i < length unit.new.nodes.items) }
    ensures made { Made unit.new result (Fits (spec.truth place (core_at unit.old b))) }
{
    let one = int_number(alloc, unit, place, 1)?;
    let zero = int_number(alloc, unit, place, 0)?;
    let int = int_type(unit)?;
    push_over_three(alloc, unit, NodeKind::Choose, place, int, b, one, zero)
}

// Both of two values: the second one is looked at only where the first one isn't zero.
fn both_true(
    alloc: Global,
    unit: &mut Unit,
    place: Place,
    a: u32,
    b: u32,
) -> Result<u32, CheckFault>
    requires ready { IsReady unit.old }
    requires a { a < length unit.old.nodes.items }
    requires b { b < length unit.old.nodes.items }
    ensures ready { IsReady unit.new }
    ensures builds { Builds unit.old unit.new }
    ensures within { IfOk result (λ i. i < length unit.new.nodes.items) }
    ensures made { Made unit.new result (Fits (spec.both_core place (core_at unit.old a) (core_at unit.old b))) }
{
    let second = truth(alloc, unit, place, b)?;
    let zero = int_number(alloc, unit, place, 0)?;
    let int = int_type(unit)?;
    push_over_three(alloc, unit, NodeKind::Choose, place, int, a, second, zero)
}

// One of two values: the second one is looked at only where the first one is zero.
fn either_true(
    alloc: Global,
    unit: &mut Unit,
    place: Place,
    a: u32,
    b: u32,
) -> Result<u32, CheckFault>
    requires ready { IsReady unit.old }
    requires a { a < length unit.old.nodes.items }
    requires b { b < length unit.old.nodes.items }
    ensures ready { IsReady unit.new }
    ensures builds { Builds unit.old unit.new }
    ensures within { IfOk result (λ i. i < length unit.new.nodes.items) }
    ensures made { Made unit.new result (Fits (spec.either_core place (core_at unit.old a) (core_at unit.old b))) }
{
    let one = int_number(alloc, unit, place, 1)?;
    let second = truth(alloc, unit, place, b)?;
    let int = int_type(unit)?;
    push_over_three(alloc, unit, NodeKind::Choose, place, int, a, one, second)
}

/// Whether a node's type is a scalar.
pub fn has_scalar_type(unit: &Unit, node: u32) -> bool
    requires ready { IsReady unit.now }
    requires node { node < length unit.now.nodes.items }
    ensures { result ≡ is_scalar_sort (operand_sort (ctype_of (core_at unit.now node))) }
{
    let ty = type_of_node(unit, node);
    is_scalar(&unit.types, operand_of(&unit.types, ty))
}

// Two scalar values under a logical and.
fn both_row(
    alloc: Global,
    unit: &mut Unit,
    place: Place,
    at: u32,
    a: u32,
    b: u32,
) -> Result<u32, CheckFault>
    requires ready { IsReady unit.old }
    requires a { a < length unit.old.nodes.items }
    requires b { b < length unit.old.nodes.items }
    ensures ready { IsReady unit.new }
    ensures builds { Builds unit.old unit.new }
    ensures within { IfOk result (λ i. i < length unit.new.nodes.items) }
    ensures made { Made unit.new result (spec.both_row place at (core_at unit.old a) (core_at unit.old b)) }
{
    if !has_scalar_type(unit, a) {
        return Err(CheckFault::BadOperand(at));
    }
    if !has_scalar_type(unit, b) {
        return Err(CheckFault::BadOperand(at));
    }
    both_true(alloc, unit, place, a, b)
}

// Two scalar values under a logical or.
fn either_row(
    alloc: Global,
    unit: &mut Unit,
    place: Place,
    at: u32,
    a: u32,
    b: u32,
) -> Result<u32, CheckFault>
    requires ready { IsReady unit.old }
    requires a { a < length unit.old.nodes.items }
    requires b { b < length unit.old.nodes.items }
    ensures ready { IsReady unit.new }
    ensures builds { Builds unit.old unit.new }
    ensures within { IfOk result (λ i. i < length unit.new.nodes.items) }
    ensures made { Made unit.new result (spec.either_row place at (core_at unit.old a) (core_at unit.old b)) }
{
    if !has_scalar_type(unit, a) {
        return Err(CheckFault::BadOperand(at));
    }
    if !has_scalar_type(unit, b) {
        return Err(CheckFault::BadOperand(at));
    }
    either_true(alloc, unit, place, a, b)
}

/// The sort of a node's type.
pub fn sort_of_node(unit: &Unit, node: u32) -> Operand
    requires ready { IsReady unit.now }
    requires node { node < length unit.now.nodes.items }
    ensures sort { sort_seen unit.now.types result ≡ operand_sort (ctype_of (core_at unit.now node)) }
    ensures within { IsWithin unit.now.types result }
{
    let ty = type_of_node(unit, node);
    operand_of(&unit.types, ty)
}

/// The row of an operator over two values.
pub fn between(
    alloc: Global,
    unit: &mut Unit,
    operator: Operator,
    place: Place,
    at: u32,
    a: u32,
    b: u32,
) -> Result<u32, CheckFault>
    requires ready { IsReady unit.old }
    requires a { a < length unit.old.nodes.items }
    requires b { b < length unit.old.nodes.items }
    ensures ready { IsReady unit.new }
    ensures builds { Builds unit.old unit.new }
    ensures within { IfOk result (λ i. i < length unit.new.nodes.items) }
    ensures made { (w : World) →
        Knows w unit.old →
        Made unit.new result
        (built_between w (operator_seen operator) place at (core_at unit.old a) (core_at unit.old b)) }
{
    let x = sort_of_node(unit, a);
    let y = sort_of_node(unit, b);
    match operator {
        Operator::Numeric(op) => numeric_row(alloc, unit, op, place, at, a, b, x, y),
        Operator::Shifting(op) => shift_row(alloc, unit, op, place, at, a, b, x, y),
        Operator::Adding => plus_row(alloc, unit, place, at, a, b, x, y),
        Operator::Subtracting => minus_row(alloc, unit, place, at, a, b, x, y),
        Operator::Ordering(op) => order_row(alloc, unit, op, place, at, a, b, x, y),
        Operator::Equating(op) => equality_row(alloc, unit, op, place, at, a, b, x, y),
        Operator::BothTrue => both_row(alloc, unit, place, at, a, b),
        Operator::EitherTrue => either_row(alloc, unit, place, at, a, b),
        Operator::Following => following(alloc, unit, place, a, b),
        Operator::NoOperator => Err(CheckFault::BadOperand(at)),
    }
}

const SIGN_AMPERSAND: u8 = 10;

const SIGN_STAR: u8 = 11;

const SIGN_PLUS: u8 = 12;

const SIGN_MINUS: u8 = 13;

const SIGN_SLASH: u8 = 16;

const SIGN_PERCENT: u8 = 17;

const SIGN_SHIFT_LEFT: u8 = 18;

const SIGN_SHIFT_RIGHT: u8 = 19;

const SIGN_LESS: u8 = 20;

const SIGN_GREATER: u8 = 21;

const SIGN_LESS_EQUAL: u8 = 22;

const SIGN_GREATER_EQUAL: u8 = 23;

const SIGN_EQUAL: u8 = 24;

const SIGN_NOT_EQUAL: u8 = 25;

const SIGN_CARET: u8 = 26;

const SIGN_BAR: u8 = 27;

const SIGN_BOTH: u8 = 28;

const SIGN_EITHER_OR: u8 = 29;

const SIGN_COMMA: u8 = 45;

/// The operator that a punctuator is between two operands.
pub fn operator_of(sign: u8) -> Operator
    ensures { operator_seen result ≡ spec.operator sign }
{
    if sign == SIGN_STAR {
        return Operator::Numeric(Op::Multiply);
    }
    if sign == SIGN_SLASH {
        return Operator::Numeric(Op::Divide);
    }
    if sign == SIGN_PERCENT {
        return Operator::Numeric(Op::Remainder);
    }
    if sign == SIGN_PLUS {
        return Operator::Adding;
    }
    if sign == SIGN_MINUS {
        return Operator::Subtracting;
    }
    if sign == SIGN_SHIFT_LEFT {
        return Operator::Shifting(Op::ShiftLeft);
    }
    if sign == SIGN_SHIFT_RIGHT {
        return Operator::Shifting(Op::ShiftRight);
    }
    if sign == SIGN_LESS {
        return Operator::Ordering(Op::Less);
    }
    if sign == SIGN_GREATER {
        return Operator::Ordering(Op::Greater);
    }
    if sign == SIGN_LESS_EQUAL {
        return Operator::Ordering(Op::LessEqual);
    }
    if sign == SIGN_GREATER_EQUAL {
        return Operator::Ordering(Op::GreaterEqual);
    }
    other_operator(sign)
}

// The other operators.
fn other_operator(sign: u8) -> Operator
    ensures { operator_seen result ≡ spec.other_operator sign }
{
    if sign == SIGN_EQUAL {
        return Operator::Equating(Op::Equal);
    }
    if sign == SIGN_NOT_EQUAL {
        return Operator::Equating(Op::NotEqual);
    }
    if sign == SIGN_AMPERSAND {
        return Operator::Numeric(Op::And);
    }
    if sign == SIGN_CARET {
        return Operator::Numeric(Op::Xor);
    }
    if sign == SIGN_BAR {
        return Operator::Numeric(Op::Or);
    }
    if sign == SIGN_BOTH {
        return Operator::BothTrue;
    }
    if sign == SIGN_EITHER_OR {
        return Operator::EitherTrue;
    }
    if sign == SIGN_COMMA {
        return Operator::Following;
    }
    Operator::NoOperator
}

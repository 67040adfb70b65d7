// Pointers as operands of one type, and what is equated (C11 6.5.9, 6.5.15p6).
#![tactic(auto, using(core_nodes::proofs::IntegerTypes::integers))]

ghost use Rattle.std.specs.Prelude.{◌≡◌, ◌<◌, length, IfOk};
ghost use Rattle.c_types.specs.Table.{type_of};
ghost use Rattle.c_consts.specs.Core.{ctype_of};
ghost use Rattle.c_senses.specs.World.{World};
ghost use Rattle.c_senses.specs.Conversions.{operand_of};
ghost use Rattle.c_senses.specs.Operators as spec;
ghost use Rattle.core_nodes.specs.Standing.{core_at, IsReady, Builds, Made, Knows};
ghost use Rattle.core_nodes.specs.Sorts.{sort_seen, IsWithin};
ghost use Rattle.c_operators.specs.Seen.{operator_seen, BothGiven};
ghost use Rattle.c_conversions.specs.Constants.{HasRows};
ghost use Rattle.value_rows.specs.Equality.{equated};

use c_conversions::nulls::is_null_constant;
use c_operators::joined::{null_first, null_second, void_joined};
use c_operators::operators::{Operator, between as between_others, sort_of_node};
use c_types::term::TypeId;
use core_nodes::CheckFault;
use core_nodes::integers::{compared, comparison};
use core_nodes::sorts::{Operand, same_types};
use core_tree::node::{Op, Unit};
use pta_base::Place;
use std::alloc::Global;

// Two pointers to those types as operands of one type.
fn joined(
    alloc: Global,
    unit: &mut Unit,
    at: u32,
    a: u32,
    b: u32,
    x: TypeId,
    y: TypeId,
) -> Result<(u32, u32), CheckFault>
    requires ready { IsReady unit.old }
    requires a { a < length unit.old.nodes.items }
    requires b { b < length unit.old.nodes.items }
    requires left { HasRows (core_at unit.old a) }
    requires right { HasRows (core_at unit.old b) }
    requires x { x.0 < length unit.old.types.terms }
    requires y { y.0 < length unit.old.types.terms }
    ensures ready { IsReady unit.new }
    ensures builds { Builds unit.old unit.new }
    ensures within { IfOk result (λ both. (both.0 < length unit.new.nodes.items) × (both.1 < length unit.new.nodes.items)) }
    ensures joined { BothGiven unit.new result (spec.joined at (core_at unit.old a) (core_at unit.old b)
        (type_of unit.old.types x.0) (type_of unit.old.types y.0)) }
{
    if same_types(&unit.types, x, y) {
        return Ok((a, b));
    }
    if is_null_constant(unit, b) {
        return null_second(alloc, unit, a, b);
    }
    if is_null_constant(unit, a) {
        return null_first(alloc, unit, a, b);
    }
    void_joined(alloc, unit, at, a, b, x, y)
}

// A pointer and an integer, which must be a null constant.
fn null_right(
    alloc: Global,
    unit: &mut Unit,
    at: u32,
    a: u32,
    b: u32,
) -> Result<(u32, u32), CheckFault>
    requires ready { IsReady unit.old }
    requires a { a < length unit.old.nodes.items }
    requires b { b < length unit.old.nodes.items }
    requires right { HasRows (core_at unit.old b) }
    ensures ready { IsReady unit.new }
    ensures builds { Builds unit.old unit.new }
    ensures within { IfOk result (λ both. (both.0 < length unit.new.nodes.items) × (both.1 < length unit.new.nodes.items)) }
    ensures joined { BothGiven unit.new result (spec.null_right at (core_at unit.old a) (core_at unit.old b)) }
{
    if !is_null_constant(unit, b) {
        return Err(CheckFault::BadOperand(at));
    }
    null_second(alloc, unit, a, b)
}

// An integer, which must be a null constant, and a pointer.
fn null_left(
    alloc: Global,
    unit: &mut Unit,
    at: u32,
    a: u32,
    b: u32,
) -> Result<(u32, u32), CheckFault>
    requires ready { IsReady unit.old }
    requires a { a < length unit.old.nodes.items }
    requires b { b < length unit.old.nodes.items }
    requires left { HasRows (core_at unit.old a) }
    ensures ready { IsReady unit.new }
    ensures builds { Builds unit.old unit.new }
    ensures within { IfOk result (λ both. (both.0 < length unit.new.nodes.items) × (both.1 < length unit.new.nodes.items)) }
    ensures joined { BothGiven unit.new result (spec.null_left at (core_at unit.old a) (core_at unit.old b)) }
{
    if !is_null_constant(unit, a) {
        return Err(CheckFault::BadOperand(at));
    }
    null_first(alloc, unit, a, b)
}

/// Pointers, or a pointer and a null constant, as operands of one type (C11 6.5.9p5, 6.5.15p6): two pointers of one type stay; a null
/// constant, the right one first, becomes the null value of the other one's type; beside a pointer to void, a pointer to an object
/// type is converted to `void *`. Anything else is `BadOperand`. The nodes of the values' constants stand in their rows.
pub fn pointers_joined(
    alloc: Global,
    unit: &mut Unit,
    at: u32,
    a: u32,
    b: u32,
    x: Operand,
    y: Operand,
) -> Result<(u32, u32), CheckFault>
    requires ready { IsReady unit.old }
    requires a { a < length unit.old.nodes.items }
    requires b { b < length unit.old.nodes.items }
    requires left { HasRows (core_at unit.old a) }
    requires right { HasRows (core_at unit.old b) }
    requires x { IsWithin unit.old.types x }
    requires y { IsWithin unit.old.types y }
    ensures ready { IsReady unit.new }
    ensures builds { Builds unit.old unit.new }
    ensures within { IfOk result (λ both. (both.0 < length unit.new.nodes.items) × (both.1 < length unit.new.nodes.items)) }
    ensures joined { BothGiven unit.new result (spec.pointers_joined at (core_at unit.old a) (core_at unit.old b)
        (sort_seen unit.old.types x) (sort_seen unit.old.types y)) }
{
    match x {
        Operand::Whole => match y {
            Operand::Address(_) => null_left(alloc, unit, at, a, b),
            Operand::Whole => Err(CheckFault::BadOperand(at)),
            Operand::Aggregate(_) => Err(CheckFault::BadOperand(at)),
            Operand::Other => Err(CheckFault::BadOperand(at)),
        },
        Operand::Address(to) => match y {
            Operand::Whole => null_right(alloc, unit, at, a, b),
            Operand::Address(other) => joined(alloc, unit, at, a, b, to, other),
            Operand::Aggregate(_) => Err(CheckFault::BadOperand(at)),
            Operand::Other => Err(CheckFault::BadOperand(at)),
        },
        Operand::Aggregate(_) => Err(CheckFault::BadOperand(at)),
        Operand::Other => Err(CheckFault::BadOperand(at)),
    }
}

// Pointers, or a pointer and a null constant, that are equated.
fn equated(
    alloc: Global,
    unit: &mut Unit,
    op: Op,
    place: Place,
    at: u32,
    a: u32,
    b: u32,
    x: Operand,
    y: Operand,
) -> Result<u32, CheckFault>
    requires ready { IsReady unit.old }
    requires a { a < length unit.old.nodes.items }
    requires b { b < length unit.old.nodes.items }
    requires left { HasRows (core_at unit.old a) }
    requires right { HasRows (core_at unit.old b) }
    requires x { IsWithin unit.old.types x }
    requires y { IsWithin unit.old.types y }
    ensures ready { IsReady unit.new }
    ensures builds { Builds unit.old unit.new }
    ensures within { IfOk result (λ i. i < length unit.new.nodes.items) }
    ensures made { Made unit.new result (equated op place at (core_at unit.old a) (core_at unit.old b)
        (sort_seen unit.old.types x) (sort_seen unit.old.types y)) }
{
    match pointers_joined(alloc, unit, at, a, b, x, y) {
        Ok((left, right)) => compared(alloc, unit, op, place, left, right),
        Err(fault) => Err(fault),
    }
}

// Two numbers, two pointers, or a pointer and a null constant that are equated.
fn equality_row(
    alloc: Global,
    unit: &mut Unit,
    op: Op,
    place: Place,
    at: u32,
    a: u32,
    b: u32,
) -> Result<u32, CheckFault>
    requires ready { IsReady unit.old }
    requires a { a < length unit.old.nodes.items }
    requires b { b < length unit.old.nodes.items }
    requires left { HasRows (core_at unit.old a) }
    requires right { HasRows (core_at unit.old b) }
    ensures ready { IsReady unit.new }
    ensures builds { Builds unit.old unit.new }
    ensures within { IfOk result (λ i. i < length unit.new.nodes.items) }
    ensures made { (w : World) →
        Knows w unit.old →
        Made unit.new result (spec.equality_row w op place at (core_at unit.old a) (core_at unit.old b)
        (operand_of (ctype_of (core_at unit.old a))) (operand_of (ctype_of (core_at unit.old b)))) }
{
    let x = sort_of_node(unit, a);
    let y = sort_of_node(unit, b);
    match x {
        Operand::Whole => match y {
            Operand::Whole => comparison(alloc, unit, op, place, a, b),
            Operand::Address(_) => equated(alloc, unit, op, place, at, a, b, x, y),
            Operand::Aggregate(_) => Err(CheckFault::BadOperand(at)),
            Operand::Other => Err(CheckFault::BadOperand(at)),
        },
        Operand::Address(_) => equated(alloc, unit, op, place, at, a, b, x, y),
        Operand::Aggregate(_) => Err(CheckFault::BadOperand(at)),
        Operand::Other => Err(CheckFault::BadOperand(at)),
    }
}

/// The row of an operator over two values (C11 6.5.5 to 6.5.14, 6.5.17). The nodes of the values' constants stand in their rows, so
/// that null constants are told under `==` and `!=`.
pub fn between(
    alloc: Global,
    unit: &mut Unit,
    operator: Operator,
    place: Place,
    at: u32,
    a: u32,
    b: u32,
) -> Result<u32, CheckFault>
    requires ready { IsReady unit.old }
    requires a { a < length unit.old.nodes.items }
    requires b { b < length unit.old.nodes.items }
    requires left { HasRows (core_at unit.old a) }
    requires right { HasRows (core_at unit.old b) }
    ensures ready { IsReady unit.new }
    ensures builds { Builds unit.old unit.new }
    ensures within { IfOk result (λ i. i < length unit.new.nodes.items) }
    ensures made { (w : World) →
        Knows w unit.old →
        Made unit.new result (spec.between w (operator_seen operator) place at (core_at unit.old a) (core_at unit.old b)) }
{
    match operator {
        Operator::Equating(op) => equality_row(alloc, unit, op, place, at, a, b),
        Operator::Numeric(op) => between_others(
            alloc,
            unit,
            Operator::Numeric(op),
            place,
            at,
            a,
            b,
        ),
        Operator::Shifting(op) => between_others(
            alloc,
            unit,
            Operator::Shifting(op),
            place,
            at,
            a,
            b,
        ),
        Operator::Ordering(op) => between_others(
            alloc,
            unit,
            Operator::Ordering(op),
            place,
            at,
            a,
            b,
        ),
        Operator::Adding => between_others(alloc, unit, Operator::Adding, place, at, a, b),
        Operator::Subtracting => between_others(
            alloc,
            unit,
            Operator::Subtracting,
            place,
            at,
            a,
            b,
        ),
        Operator::BothTrue => between_others(alloc, unit, Operator::BothTrue, place, at, a, b),
        Operator::EitherTrue => between_others(alloc, unit, Operator::EitherTrue, place, at, a, b),
        Operator::Following => between_others(alloc, unit, Operator::Following, place, at, a, b),
        Operator::NoOperator => between_others(alloc, unit, Operator::NoOperator, place, at, a, b),
    }
}

// Choices (C11 6.5.15).
#![tactic(auto, using(crate::proofs::Pairs::choices))]

ghost use Rattle.std.specs.Prelude.{◌≡◌, ◌<◌, length, IfOk};
ghost use Rattle.c_types.specs.Table.{type_of};
ghost use Rattle.c_consts.specs.Core.{ctype_of};
ghost use Rattle.c_senses.specs.Given.{Fits};
ghost use Rattle.c_senses.specs.World.{World};
ghost use Rattle.c_senses.specs.Conversions.{operand_of};
ghost use Rattle.c_senses.specs.Operators as spec;
ghost use Rattle.core_nodes.specs.Standing.{core_at, IsReady, Builds, Made, Knows};
ghost use Rattle.core_nodes.specs.Sorts.{sort_seen};
ghost use Rattle.c_operators.specs.Seen.{BothGiven};
ghost use Rattle.c_conversions.specs.Constants.{HasRows};
ghost use Rattle.value_rows.specs.Choices.{alike_or_joined, pair, chosen_of};

use crate::equality::pointers_joined;
use c_operators::operators::{has_scalar_type, sort_of_node};
use core_nodes::CheckFault;
use core_nodes::integers::in_common;
use core_nodes::reads::type_of_node;
use core_nodes::sorts::{Operand, same_types};
use core_nodes::trees::push_over_three;
use core_tree::node::{NodeKind, Unit};
use pta_base::Place;
use std::alloc::Global;

// Two integers in their common type.
fn numbers(alloc: Global, unit: &mut Unit, a: u32, b: u32) -> Result<(u32, u32), CheckFault>
    requires ready { IsReady unit.old }
    requires a { a < length unit.old.nodes.items }
    requires b { b < length unit.old.nodes.items }
    ensures ready { IsReady unit.new }
    ensures builds { Builds unit.old unit.new }
    ensures within { IfOk result (λ both. (both.0 < length unit.new.nodes.items) × (both.1 < length unit.new.nodes.items)) }
    ensures made { (w : World) →
        Knows w unit.old →
        BothGiven unit.new result (Fits (pair
        (spec.in_common w (core_at unit.old a) (core_at unit.old b) (core_at unit.old a))
        (spec.in_common w (core_at unit.old a) (core_at unit.old b) (core_at unit.old b)))) }
{
    let both = in_common(alloc, unit, a, b)?;
    Ok((both.left, both.right))
}

// Values of one type, whichever, or pointers that are made ones of one type.
fn alike_or_joined(
    alloc: Global,
    unit: &mut Unit,
    at: u32,
    a: u32,
    b: u32,
) -> Result<(u32, u32), CheckFault>
    requires ready { IsReady unit.old }
    requires a { a < length unit.old.nodes.items }
    requires b { b < length unit.old.nodes.items }
    requires left { HasRows (core_at unit.old a) }
    requires right { HasRows (core_at unit.old b) }
    ensures ready { IsReady unit.new }
    ensures builds { Builds unit.old unit.new }
    ensures within { IfOk result (λ both. (both.0 < length unit.new.nodes.items) × (both.1 < length unit.new.nodes.items)) }
    ensures made { BothGiven unit.new result (alike_or_joined at (core_at unit.old a) (core_at unit.old b)
        (operand_of (ctype_of (core_at unit.old a))) (operand_of (ctype_of (core_at unit.old b)))) }
{
    let left = type_of_node(unit, a);
    let right = type_of_node(unit, b);
    if same_types(&unit.types, left, right) {
        return Ok((a, b));
    }
    let x = sort_of_node(unit, a);
    let y = sort_of_node(unit, b);
    pointers_joined(alloc, unit, at, a, b, x, y)
}

// The branches of a choice as values of one type.
fn branches(
    alloc: Global,
    unit: &mut Unit,
    at: u32,
    a: u32,
    b: u32,
) -> Result<(u32, u32), CheckFault>
    requires ready { IsReady unit.old }
    requires a { a < length unit.old.nodes.items }
    requires b { b < length unit.old.nodes.items }
    requires left { HasRows (core_at unit.old a) }
    requires right { HasRows (core_at unit.old b) }
    ensures ready { IsReady unit.new }
    ensures builds { Builds unit.old unit.new }
    ensures within { IfOk result (λ both. (both.0 < length unit.new.nodes.items) × (both.1 < length unit.new.nodes.items)) }
    ensures made { (w : World) →
        Knows w unit.old →
        BothGiven unit.new result (spec.branches w at (core_at unit.old a) (core_at unit.old b)
        (operand_of (ctype_of (core_at unit.old a))) (operand_of (ctype_of (core_at unit.old b)))) }
{
    match sort_of_node(unit, a) {
        Operand::Whole => match sort_of_node(unit, b) {
            Operand::Whole => numbers(alloc, unit, a, b),
            Operand::Address(_) => alike_or_joined(alloc, unit, at, a, b),
            Operand::Aggregate(_) => alike_or_joined(alloc, unit, at, a, b),
            Operand::Other => alike_or_joined(alloc, unit, at, a, b),
        },
        Operand::Address(_) => alike_or_joined(alloc, unit, at, a, b),
        Operand::Aggregate(_) => alike_or_joined(alloc, unit, at, a, b),
        Operand::Other => alike_or_joined(alloc, unit, at, a, b),
    }
}

// A choice of values of one type.
fn chosen(
    alloc: Global,
    unit: &mut Unit,
    place: Place,
    c: u32,
    a: u32,
    b: u32,
) -> Result<u32, CheckFault>
    requires ready { IsReady unit.old }
    requires c { c < length unit.old.nodes.items }
    requires a { a < length unit.old.nodes.items }
    requires b { b < length unit.old.nodes.items }
    ensures ready { IsReady unit.new }
    ensures builds { Builds unit.old unit.new }
    ensures within { IfOk result (λ i. i < length unit.new.nodes.items) }
    ensures made { Made unit.new result (Fits (spec.chosen place (core_at unit.old c) (pair (core_at unit.old a) (core_at unit.old b)))) }
{
    let ty = type_of_node(unit, a);
    push_over_three(alloc, unit, NodeKind::Choose, place, ty, c, a, b)
}

// A choice whose condition is a scalar.
fn choice_of(
    alloc: Global,
    unit: &mut Unit,
    place: Place,
    at: u32,
    c: u32,
    a: u32,
    b: u32,
) -> Result<u32, CheckFault>
    requires ready { IsReady unit.old }
    requires c { c < length unit.old.nodes.items }
    requires a { a < length unit.old.nodes.items }
    requires b { b < length unit.old.nodes.items }
    requires left { HasRows (core_at unit.old a) }
    requires right { HasRows (core_at unit.old b) }
    ensures ready { IsReady unit.new }
    ensures builds { Builds unit.old unit.new }
    ensures within { IfOk result (λ i. i < length unit.new.nodes.items) }
    ensures made { (w : World) →
        Knows w unit.old →
        Made unit.new result (chosen_of w place at (core_at unit.old c) (core_at unit.old a) (core_at unit.old b)) }
{
    match branches(alloc, unit, at, a, b) {
        Ok((left, right)) => chosen(alloc, unit, place, c, left, right),
        Err(fault) => Err(fault),
    }
}

/// The choice of one of two values by a scalar (C11 6.5.15): integers are converted to their common type; values of one type stay,
/// whichever it is; of pointers, a null constant becomes the null value of the other one's type, and beside a pointer to void a
/// pointer to an object type is converted to `void *`. Anything else is `BadOperand`. The nodes of the constants of the two stand in
/// their rows.
pub fn choice_row(
    alloc: Global,
    unit: &mut Unit,
    place: Place,
    at: u32,
    c: u32,
    a: u32,
    b: u32,
) -> Result<u32, CheckFault>
    requires ready { IsReady unit.old }
    requires c { c < length unit.old.nodes.items }
    requires a { a < length unit.old.nodes.items }
    requires b { b < length unit.old.nodes.items }
    requires left { HasRows (core_at unit.old a) }
    requires right { HasRows (core_at unit.old b) }
    ensures ready { IsReady unit.new }
    ensures builds { Builds unit.old unit.new }
    ensures within { IfOk result (λ i. i < length unit.new.nodes.items) }
    ensures made { (w : World) →
        Knows w unit.old →
        Made unit.new result (spec.choice_row w place at (core_at unit.old c) (core_at unit.old a) (core_at unit.old b)) }
{
    if !has_scalar_type(unit, c) {
        return Err(CheckFault::BadOperand(at));
    }
    choice_of(alloc, unit, place, at, c, a, b)
}

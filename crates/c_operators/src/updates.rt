// Assignments that compute, and counting up and down (C11 6.5.2.4, 6.5.3.1, 6.5.16.2).
#![tactic(auto, using(core_nodes::proofs::IntegerTypes::integers))]

ghost use Rattle.std.specs.Prelude.{◌≡◌, ◌<◌, length, IfOk};
ghost use Rattle.c_senses.specs.Given.{Fits};
ghost use Rattle.c_senses.specs.World.{World};
ghost use Rattle.c_senses.specs.Conversions.{promotion as promotion_spec};
ghost use Rattle.c_senses.specs.Objects as spec;
ghost use Rattle.core_nodes.specs.Standing.{core_at, IsReady, Builds, Made, Knows};
ghost use Rattle.core_nodes.specs.Sorts.{sort_seen};

use crate::operators::sort_of_node;
use core_nodes::CheckFault;
use core_nodes::integers::promotion;
use core_nodes::reads::{is_place, type_of_node};
use core_nodes::sorts::Operand;
use core_nodes::trees::push_over_two;
use core_tree::node::{NodeKind, Op, Unit};
use pta_base::Place;
use std::alloc::Global;

// Whether an operator moves a pointer.
fn moves_pointer(op: Op) -> bool
    ensures { result ≡ spec.moves_pointer op }
{
    match op {
        Op::Plus => true,
        Op::Minus => true,
        _ => false,
    }
}

// A place that an operator and a promoted value change.
fn updated(
    alloc: Global,
    unit: &mut Unit,
    op: Op,
    post: bool,
    place: Place,
    p: u32,
    v: u32,
) -> Result<u32, CheckFault>
    requires ready { IsReady unit.old }
    requires p { p < length unit.old.nodes.items }
    requires v { v < length unit.old.nodes.items }
    ensures ready { IsReady unit.new }
    ensures builds { Builds unit.old unit.new }
    ensures within { IfOk result (λ i. i < length unit.new.nodes.items) }
    ensures made { (w : World) →
        Knows w unit.old →
        Made unit.new result (Fits (spec.updated w op post place (core_at unit.old p) (promotion_spec w (core_at unit.old v)))) }
{
    let by = promotion(alloc, unit, v)?;
    let ty = type_of_node(unit, p);
    push_over_two(alloc, unit, NodeKind::Update { op, post }, place, ty, p, by)
}

// A place of those sorts that an operator and a value change.
fn update_sorts(
    alloc: Global,
    unit: &mut Unit,
    op: Op,
    post: bool,
    place: Place,
    at: u32,
    p: u32,
    v: u32,
    x: Operand,
    y: Operand,
) -> Result<u32, CheckFault>
    requires ready { IsReady unit.old }
    requires p { p < length unit.old.nodes.items }
    requires v { v < length unit.old.nodes.items }
    ensures ready { IsReady unit.new }
    ensures builds { Builds unit.old unit.new }
    ensures within { IfOk result (λ i. i < length unit.new.nodes.items) }
    ensures made { (w : World) →
        Knows w unit.old →
        Made unit.new result (spec.update_sorts w op post place at (core_at unit.old p) (core_at unit.old v)
        (sort_seen unit.old.types x) (sort_seen unit.old.types y)) }
{
    match x {
        Operand::Whole => match y {
            Operand::Whole => updated(alloc, unit, op, post, place, p, v),
            Operand::Address(_) => Err(CheckFault::BadOperand(at)),
            Operand::Aggregate(_) => Err(CheckFault::BadOperand(at)),
            Operand::Other => Err(CheckFault::BadOperand(at)),
        },
        Operand::Address(_) => match y {
            Operand::Whole => {
                if !moves_pointer(op) {
                    return Err(CheckFault::BadOperand(at));
                }
                updated(alloc, unit, op, post, place, p, v)
            }
            Operand::Address(_) => Err(CheckFault::BadOperand(at)),
            Operand::Aggregate(_) => Err(CheckFault::BadOperand(at)),
            Operand::Other => Err(CheckFault::BadOperand(at)),
        },
        Operand::Aggregate(_) => Err(CheckFault::BadOperand(at)),
        Operand::Other => Err(CheckFault::BadOperand(at)),
    }
}

/// A place that an operator and a value change: `p op= v`, and `++` and `--` with the number 1 (C11 6.5.16.2, 6.5.2.4, 6.5.3.1). The
/// place is of an integer type, or of a pointer type with `+` or `-`, and the value an integer, which is promoted; else it is
/// `BadOperand`. `post` says that the row gives the place's old value.
pub fn update_row(
    alloc: Global,
    unit: &mut Unit,
    op: Op,
    post: bool,
    place: Place,
    at: u32,
    p: u32,
    v: u32,
) -> Result<u32, CheckFault>
    requires ready { IsReady unit.old }
    requires p { p < length unit.old.nodes.items }
    requires v { v < length unit.old.nodes.items }
    ensures ready { IsReady unit.new }
    ensures builds { Builds unit.old unit.new }
    ensures within { IfOk result (λ i. i < length unit.new.nodes.items) }
    ensures made { (w : World) →
        Knows w unit.old →
        Made unit.new result (spec.update_row w op post place at (core_at unit.old p) (core_at unit.old v)) }
{
    if !is_place(unit, p) {
        return Err(CheckFault::BadOperand(at));
    }
    let x = sort_of_node(unit, p);
    let y = sort_of_node(unit, v);
    update_sorts(alloc, unit, op, post, place, at, p, v, x, y)
}

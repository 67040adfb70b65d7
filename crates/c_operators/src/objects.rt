// Operators before their operands, addresses, and what pointers point to (C11 6.5.2.1, 6.5.3).
#![tactic(auto, using(core_nodes::proofs::IntegerTypes::integers))]

ghost use Rattle.std.specs.Prelude.{◌≡◌, ◌<◌, length, IfOk};
ghost use Rattle.c_types.specs.Table.{type_of};
ghost use Rattle.c_consts.specs.Core.{ctype_of, core_sort};
ghost use Rattle.c_senses.specs.Given.{Fits};
ghost use Rattle.c_senses.specs.World.{World};
ghost use Rattle.c_senses.specs.Objects as spec;
ghost use Rattle.c_senses.specs.Operators.{promoted_core, promoted_row as promoted_spec, not_row as not_spec};
ghost use Rattle.core_nodes.specs.Standing.{core_at, IsReady, Builds, Made, Knows};
ghost use Rattle.core_nodes.specs.Sorts.{sort_seen, IsWithin};

use crate::operators::{has_scalar_type, moved};
use c_types::term::{Term, TypeId};
use core_nodes::CheckFault;
use core_nodes::integers::promotion;
use core_nodes::reads::{is_place, type_of_node};
use core_nodes::sorts::Operand;
use core_nodes::trees::{int_type, pointer_type, push_over};
use core_nodes::widths::place_width;
use core_tree::node::{NodeKind, Op, Unit};
use pta_base::{Kind, Place};
use std::alloc::Global;

// An operator over a promoted integer.
fn promoted(alloc: Global, unit: &mut Unit, op: Op, place: Place, v: u32) -> Result<u32, CheckFault>
    requires ready { IsReady unit.old }
    requires v { v < length unit.old.nodes.items }
    ensures ready { IsReady unit.new }
    ensures builds { Builds unit.old unit.new }
    ensures within { IfOk result (λ i. i < length unit.new.nodes.items) }
    ensures made { (w : World) → Knows w unit.old → Made unit.new result (Fits (promoted_core w op place (core_at unit.old v))) }
{
    let operand = promotion(alloc, unit, v)?;
    let ty = type_of_node(unit, operand);
    push_over(alloc, unit, NodeKind::Arith(op), place, ty, operand)
}

/// An operator on one integer.
pub fn promoted_row(
    alloc: Global,
    unit: &mut Unit,
    op: Op,
    place: Place,
    at: u32,
    v: u32,
    x: Operand,
) -> Result<u32, CheckFault>
    requires ready { IsReady unit.old }
    requires v { v < length unit.old.nodes.items }
    ensures ready { IsReady unit.new }
    ensures builds { Builds unit.old unit.new }
    ensures within { IfOk result (λ i. i < length unit.new.nodes.items) }
    ensures made { (w : World) →
        Knows w unit.old →
        Made unit.new result (promoted_spec w op place at (core_at unit.old v) (sort_seen unit.old.types x)) }
{
    match x {
        Operand::Whole => promoted(alloc, unit, op, place, v),
        Operand::Address(_) => Err(CheckFault::BadOperand(at)),
        Operand::Aggregate(_) => Err(CheckFault::BadOperand(at)),
        Operand::Other => Err(CheckFault::BadOperand(at)),
    }
}

/// The negation of a scalar.
pub fn not_row(
    alloc: Global,
    unit: &mut Unit,
    place: Place,
    at: u32,
    v: u32,
) -> Result<u32, CheckFault>
    requires ready { IsReady unit.old }
    requires v { v < length unit.old.nodes.items }
    ensures ready { IsReady unit.new }
    ensures builds { Builds unit.old unit.new }
    ensures within { IfOk result (λ i. i < length unit.new.nodes.items) }
    ensures made { Made unit.new result (not_spec place at (core_at unit.old v)) }
{
    if !has_scalar_type(unit, v) {
        return Err(CheckFault::BadOperand(at));
    }
    let int = int_type(unit)?;
    push_over(alloc, unit, NodeKind::Arith(Op::Not), place, int, v)
}

/// The address of a place that is no bit-field.
pub fn address_row(
    alloc: Global,
    unit: &mut Unit,
    place: Place,
    at: u32,
    node: u32,
) -> Result<u32, CheckFault>
    requires ready { IsReady unit.old }
    requires node { node < length unit.old.nodes.items }
    ensures ready { IsReady unit.new }
    ensures builds { Builds unit.old unit.new }
    ensures within { IfOk result (λ i. i < length unit.new.nodes.items) }
    ensures made { (w : World) →
        Knows w unit.old →
        Made unit.new result
        (spec.address_row w place at (core_at unit.old node) (core_sort (core_at unit.old node))) }
{
    if !is_place(unit, node) {
        return Err(CheckFault::BadOperand(at));
    }
    if place_width(unit, node).is_some() {
        return Err(CheckFault::BadOperand(at));
    }
    let ty = type_of_node(unit, node);
    let pointer = pointer_type(unit, ty)?;
    push_over(alloc, unit, NodeKind::AddressOf, place, pointer, node)
}

// What a pointer points to, unless it is void.
fn target_row(
    alloc: Global,
    unit: &mut Unit,
    place: Place,
    at: u32,
    v: u32,
    to: TypeId,
) -> Result<u32, CheckFault>
    requires ready { IsReady unit.old }
    requires v { v < length unit.old.nodes.items }
    requires to { to.0 < length unit.old.types.terms }
    ensures ready { IsReady unit.new }
    ensures builds { Builds unit.old unit.new }
    ensures within { IfOk result (λ i. i < length unit.new.nodes.items) }
    ensures made { Made unit.new result (spec.target_row place at (core_at unit.old v) (type_of unit.old.types to.0)) }
{
    match unit.types.term(to) {
        Term::Void => Err(CheckFault::BadOperand(at)),
        Term::Floating => Err(CheckFault::Unsupported(Kind::Floating, at)),
        Term::VaList => push_over(alloc, unit, NodeKind::Deref, place, to, v),
        Term::Bool => push_over(alloc, unit, NodeKind::Deref, place, to, v),
        Term::Integer { .. } => push_over(alloc, unit, NodeKind::Deref, place, to, v),
        Term::Pointer(_) => push_over(alloc, unit, NodeKind::Deref, place, to, v),
        Term::Array { .. } => push_over(alloc, unit, NodeKind::Deref, place, to, v),
        Term::Function { .. } => push_over(alloc, unit, NodeKind::Deref, place, to, v),
        Term::Structure(_) => push_over(alloc, unit, NodeKind::Deref, place, to, v),
        Term::Union(_) => push_over(alloc, unit, NodeKind::Deref, place, to, v),
    }
}

/// What the value of a pointer points to.
pub fn indirection_row(
    alloc: Global,
    unit: &mut Unit,
    place: Place,
    at: u32,
    v: u32,
    x: Operand,
) -> Result<u32, CheckFault>
    requires ready { IsReady unit.old }
    requires v { v < length unit.old.nodes.items }
    requires x { IsWithin unit.old.types x }
    ensures ready { IsReady unit.new }
    ensures builds { Builds unit.old unit.new }
    ensures within { IfOk result (λ i. i < length unit.new.nodes.items) }
    ensures made { Made unit.new result (spec.indirection_row place at (core_at unit.old v) (sort_seen unit.old.types x)) }
{
    match x {
        Operand::Address(to) => target_row(alloc, unit, place, at, v, to),
        Operand::Whole => Err(CheckFault::BadOperand(at)),
        Operand::Aggregate(_) => Err(CheckFault::BadOperand(at)),
        Operand::Other => Err(CheckFault::BadOperand(at)),
    }
}

// The element of a pointer by an integer.
fn element_row(
    alloc: Global,
    unit: &mut Unit,
    place: Place,
    at: u32,
    pointer: u32,
    by: u32,
    to: TypeId,
) -> Result<u32, CheckFault>
    requires ready { IsReady unit.old }
    requires pointer { pointer < length unit.old.nodes.items }
    requires by { by < length unit.old.nodes.items }
    requires to { to.0 < length unit.old.types.terms }
    ensures ready { IsReady unit.new }
    ensures builds { Builds unit.old unit.new }
    ensures within { IfOk result (λ i. i < length unit.new.nodes.items) }
    ensures made { (w : World) →
        Knows w unit.old →
        Made unit.new result
        (spec.element_row w place at (core_at unit.old pointer) (core_at unit.old by) (type_of unit.old.types to.0)) }
{
    match moved(alloc, unit, false, place, at, pointer, by, to) {
        Ok(p) => target_row(alloc, unit, place, at, p, to),
        Err(fault) => Err(fault),
    }
}

/// An index: a pointer and an integer in any order.
pub fn index_row(
    alloc: Global,
    unit: &mut Unit,
    place: Place,
    at: u32,
    a: u32,
    b: u32,
    x: Operand,
    y: Operand,
) -> Result<u32, CheckFault>
    requires ready { IsReady unit.old }
    requires a { a < length unit.old.nodes.items }
    requires b { b < length unit.old.nodes.items }
    requires x { IsWithin unit.old.types x }
    requires y { IsWithin unit.old.types y }
    ensures ready { IsReady unit.new }
    ensures builds { Builds unit.old unit.new }
    ensures within { IfOk result (λ i. i < length unit.new.nodes.items) }
    ensures made { (w : World) →
        Knows w unit.old →
        Made unit.new result
        (spec.index_row w place at (core_at unit.old a) (core_at unit.old b)
        (sort_seen unit.old.types x) (sort_seen unit.old.types y)) }
{
    match x {
        Operand::Whole => match y {
            Operand::Address(to) => element_row(alloc, unit, place, at, b, a, to),
            Operand::Whole => Err(CheckFault::BadOperand(at)),
            Operand::Aggregate(_) => Err(CheckFault::BadOperand(at)),
            Operand::Other => Err(CheckFault::BadOperand(at)),
        },
        Operand::Address(to) => match y {
            Operand::Whole => element_row(alloc, unit, place, at, a, b, to),
            Operand::Address(_) => Err(CheckFault::BadOperand(at)),
            Operand::Aggregate(_) => Err(CheckFault::BadOperand(at)),
            Operand::Other => Err(CheckFault::BadOperand(at)),
        },
        Operand::Aggregate(_) => Err(CheckFault::BadOperand(at)),
        Operand::Other => Err(CheckFault::BadOperand(at)),
    }
}

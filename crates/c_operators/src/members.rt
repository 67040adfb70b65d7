// Members of structures and unions (C11 6.5.2.3).
#![tactic(auto, using(core_nodes::proofs::IntegerTypes::integers))]

ghost use Rattle.std.specs.Prelude.{◌≡◌, ◌<◌, length, IfOk};
ghost use Rattle.c_types.specs.Table.{type_of};
ghost use Rattle.c_consts.specs.Core.{ctype_of, core_sort};
ghost use Rattle.c_senses.specs.Given.{Fits};
ghost use Rattle.c_senses.specs.World.{World};
ghost use Rattle.c_senses.specs.Objects as spec;
ghost use Rattle.core_nodes.specs.Standing.{core_at, IsReady, Builds, Made, Knows};
ghost use Rattle.core_nodes.specs.Sorts.{sort_seen, IsWithin};
ghost use Rattle.c_operators.specs.c_members.Steps.{member_refusal as refusal_spec, unless_refused};
ghost use Rattle.c_operators.specs.Members.{stepped, pointed};

use crate::c_members::{has_members, member_of, member_refusal, way_to};
use c_types::term::TypeId;
use core_nodes::CheckFault;
use core_nodes::reads::{is_place, type_of_node};
use core_nodes::sorts::Operand;
use core_nodes::trees::push_over;
use core_tree::node::{NodeKind, Unit};
use pta_base::Place;
use std::alloc::Global;

// A member of a place or of a value, by its number and its type.
fn member_node(
    alloc: Global,
    unit: &mut Unit,
    place: Place,
    node: u32,
    k: u32,
    ty: TypeId,
) -> Result<u32, CheckFault>
    requires ready { IsReady unit.old }
    requires node { node < length unit.old.nodes.items }
    requires ty { ty.0 < length unit.old.types.terms }
    ensures ready { IsReady unit.new }
    ensures builds { Builds unit.old unit.new }
    ensures within { IfOk result (λ i. i < length unit.new.nodes.items) }
    ensures made { Made unit.new result (Fits (spec.member_node place k (core_at unit.old node) (type_of unit.old.types ty.0)
        (core_sort (core_at unit.old node)))) }
{
    if is_place(unit, node) {
        return push_over(alloc, unit, NodeKind::Member(k), place, ty, node);
    }
    push_over(alloc, unit, NodeKind::MemberOfValue(k), place, ty, node)
}

// A member of that type, unless its type refuses it.
fn reached(
    alloc: Global,
    unit: &mut Unit,
    place: Place,
    at: u32,
    node: u32,
    k: u32,
    ty: TypeId,
) -> Result<u32, CheckFault>
    requires ready { IsReady unit.old }
    requires node { node < length unit.old.nodes.items }
    requires ty { ty.0 < length unit.old.types.terms }
    ensures ready { IsReady unit.new }
    ensures builds { Builds unit.old unit.new }
    ensures within { IfOk result (λ i. i < length unit.new.nodes.items) }
    ensures made { Made unit.new result
        (unless_refused (refusal_spec (type_of unit.old.types ty.0) (spec.is_place_sort (core_sort (core_at unit.old node)))) at
        (spec.member_node place k (core_at unit.old node) (type_of unit.old.types ty.0) (core_sort (core_at unit.old node)))) }
{
    match member_refusal(&unit.types, ty, is_place(unit, node)) {
        Some(kind) => Err(CheckFault::Unsupported(kind, at)),
        None => member_node(alloc, unit, place, node, k, ty),
    }
}

// The next member on a way.
fn one_step(
    alloc: Global,
    unit: &mut Unit,
    place: Place,
    at: u32,
    node: u32,
    k: u32,
) -> Result<u32, CheckFault>
    requires ready { IsReady unit.old }
    requires node { node < length unit.old.nodes.items }
    ensures ready { IsReady unit.new }
    ensures builds { Builds unit.old unit.new }
    ensures within { IfOk result (λ i. i < length unit.new.nodes.items) }
    ensures made { (w : World) → Knows w unit.old → Made unit.new result (stepped w place at (core_at unit.old node) k) }
{
    let whole = type_of_node(unit, node);
    let ty = match member_of(&unit.types, whole, k) {
        Some(member) => member.ty,
        None => return Err(CheckFault::BadOperand(at)),
    };
    reached(alloc, unit, place, at, node, k, ty)
}

// The members on a way, one after another.
fn along(
    alloc: Global,
    unit: &mut Unit,
    place: Place,
    at: u32,
    node: u32,
    way: &[u32],
) -> Result<u32, CheckFault>
    requires ready { IsReady unit.old }
    requires node { node < length unit.old.nodes.items }
    ensures ready { IsReady unit.new }
    ensures builds { Builds unit.old unit.new }
    ensures within { IfOk result (λ i. i < length unit.new.nodes.items) }
    ensures made { (w : World) → Knows w unit.old → Made unit.new result (spec.along w place at way.now (core_at unit.old node)) }
{
    let mut reached = node;
    for k in way {
        match one_step(alloc, unit, place, at, reached, *k) {
            Ok(member) => reached = member,
            Err(fault) => return Err(fault),
        }
    }
    Ok(reached)
}

/// The member of a name of a structure or union, with the members on the way to it: a member of a place is a place, one of a value a
/// value (C11 6.5.2.3p3). Where the type isn't a complete structure or union that has the member it is `BadOperand`; a flexible array,
/// an array of a value, and a member of floating type or of the type of variadic lists are `Unsupported` with their kinds.
pub fn member_row(
    alloc: Global,
    unit: &mut Unit,
    place: Place,
    at: u32,
    name: &[u8],
    node: u32,
) -> Result<u32, CheckFault>
    requires ready { IsReady unit.old }
    requires node { node < length unit.old.nodes.items }
    ensures ready { IsReady unit.new }
    ensures builds { Builds unit.old unit.new }
    ensures within { IfOk result (λ i. i < length unit.new.nodes.items) }
    ensures made { (w : World) → Knows w unit.old → Made unit.new result (spec.member_row w place at name.now (core_at unit.old node)) }
{
    let whole = type_of_node(unit, node);
    match way_to(alloc, &unit.types, whole, name)? {
        Some(way) => along(alloc, unit, place, at, node, way.as_slice()),
        None => Err(CheckFault::BadOperand(at)),
    }
}

// The member of a name of what a pointer points to.
fn pointed_member(
    alloc: Global,
    unit: &mut Unit,
    place: Place,
    at: u32,
    name: &[u8],
    v: u32,
    to: TypeId,
) -> Result<u32, CheckFault>
    requires ready { IsReady unit.old }
    requires v { v < length unit.old.nodes.items }
    requires to { to.0 < length unit.old.types.terms }
    ensures ready { IsReady unit.new }
    ensures builds { Builds unit.old unit.new }
    ensures within { IfOk result (λ i. i < length unit.new.nodes.items) }
    ensures made { (w : World) →
        Knows w unit.old → Made unit.new result (pointed w place at name.now (core_at unit.old v) (type_of unit.old.types to.0)) }
{
    if !has_members(&unit.types, to) {
        return Err(CheckFault::BadOperand(at));
    }
    let target = push_over(alloc, unit, NodeKind::Deref, place, to, v)?;
    member_row(alloc, unit, place, at, name, target)
}

/// The member of a name of the structure or union to which a pointer's value points, which is complete (C11 6.5.2.3p4).
pub fn arrow_row(
    alloc: Global,
    unit: &mut Unit,
    place: Place,
    at: u32,
    name: &[u8],
    v: u32,
    x: Operand,
) -> Result<u32, CheckFault>
    requires ready { IsReady unit.old }
    requires v { v < length unit.old.nodes.items }
    requires x { IsWithin unit.old.types x }
    ensures ready { IsReady unit.new }
    ensures builds { Builds unit.old unit.new }
    ensures within { IfOk result (λ i. i < length unit.new.nodes.items) }
    ensures made { (w : World) →
        Knows w unit.old →
        Made unit.new result (spec.arrow_row w place at name.now (core_at unit.old v) (sort_seen unit.old.types x)) }
{
    match x {
        Operand::Address(to) => pointed_member(alloc, unit, place, at, name, v, to),
        Operand::Whole => Err(CheckFault::BadOperand(at)),
        Operand::Aggregate(_) => Err(CheckFault::BadOperand(at)),
        Operand::Other => Err(CheckFault::BadOperand(at)),
    }
}

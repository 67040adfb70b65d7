// The table of conversions (C11 6.3, 6.5.4, 6.5.16.1).
#![tactic(auto, using(crate::proofs::Failing::conversions))]

ghost use Rattle.std.specs.Prelude.{◌≡◌, ◌<◌, length, IfOk};
ghost use Rattle.c_types.specs.Trees.{PointerTo};
ghost use Rattle.c_types.specs.Table.{type_of};
ghost use Rattle.c_consts.specs.Core.{ctype_of};
ghost use Rattle.core_nodes.specs.passed.c_senses.World.{World};
ghost use Rattle.core_nodes.specs.passed.c_senses.Conversions as spec;
ghost use Rattle.core_nodes.specs.Standing.{core_at, IsReady, Builds, Made, Knows};
ghost use Rattle.c_conversions.specs.Constants.{HasRows};

use crate::nulls::{converted, is_null_constant, null_value};
use crate::targets::{PointerRow, is_character, pointer_row, refusal, target_of};
use crate::upcasts::upcast;
use c_types::term::{Term, TypeId};
use core_nodes::CheckFault;
use core_nodes::reads::type_of_node;
use core_nodes::sorts::{Operand, operand_of, same_types};
use core_tree::node::Unit;
use pta_base::Kind;
use std::alloc::Global;

// A pointer to a structure as a pointer to a first member, by a cast; else it is refused with that kind.
fn upcast_or(
    alloc: Global,
    unit: &mut Unit,
    cast: bool,
    at: u32,
    v: u32,
    from: TypeId,
    to: TypeId,
    kind: Kind,
) -> Result<u32, CheckFault>
    requires ready { IsReady unit.old }
    requires v { v < length unit.old.nodes.items }
    requires from { from.0 < length unit.old.types.terms }
    requires to { to.0 < length unit.old.types.terms }
    ensures ready { IsReady unit.new }
    ensures builds { Builds unit.old unit.new }
    ensures within { IfOk result (λ i. i < length unit.new.nodes.items) }
    ensures made { (w : World) →
        Knows w unit.old →
        Made unit.new result (spec.from_structure w cast at (core_at unit.old v)
        (type_of unit.old.types from.0) (type_of unit.old.types to.0) kind) }
{
    if !cast {
        return Err(refusal(kind, at));
    }
    match upcast(alloc, unit, v, from, to)? {
        Some(last) => Ok(last),
        None => Err(refusal(kind, at)),
    }
}

// A pointer as one of another type, by what the two point to.
fn pointers(
    alloc: Global,
    unit: &mut Unit,
    cast: bool,
    at: u32,
    v: u32,
    ty: TypeId,
    from: TypeId,
    to: TypeId,
) -> Result<u32, CheckFault>
    requires ready { IsReady unit.old }
    requires v { v < length unit.old.nodes.items }
    requires ty { ty.0 < length unit.old.types.terms }
    requires pointer { type_of unit.old.types ty.0 ≡ PointerTo (type_of unit.old.types to.0) }
    requires from { from.0 < length unit.old.types.terms }
    requires to { to.0 < length unit.old.types.terms }
    ensures ready { IsReady unit.new }
    ensures builds { Builds unit.old unit.new }
    ensures within { IfOk result (λ i. i < length unit.new.nodes.items) }
    ensures made { (w : World) →
        Knows w unit.old →
        Made unit.new result (spec.pointers w cast at (core_at unit.old v)
        (type_of unit.old.types from.0) (type_of unit.old.types to.0)
        (spec.target_of (type_of unit.old.types from.0)) (spec.target_of (type_of unit.old.types to.0))) }
{
    let a = target_of(&unit.types, from);
    let b = target_of(&unit.types, to);
    let character = is_character(&unit.types, to);
    match pointer_row(a, b, character) {
        PointerRow::Converts => converted(alloc, unit, ty, v),
        PointerRow::Upcasts(kind) => upcast_or(alloc, unit, cast, at, v, from, to, kind),
        PointerRow::Refused(kind) => Err(refusal(kind, at)),
    }
}

// A value that is no null constant as one of a type of pointers.
fn to_pointer(
    alloc: Global,
    unit: &mut Unit,
    cast: bool,
    at: u32,
    v: u32,
    ty: TypeId,
    to: TypeId,
) -> Result<u32, CheckFault>
    requires ready { IsReady unit.old }
    requires v { v < length unit.old.nodes.items }
    requires ty { ty.0 < length unit.old.types.terms }
    requires pointer { type_of unit.old.types ty.0 ≡ PointerTo (type_of unit.old.types to.0) }
    requires to { to.0 < length unit.old.types.terms }
    ensures ready { IsReady unit.new }
    ensures builds { Builds unit.old unit.new }
    ensures within { IfOk result (λ i. i < length unit.new.nodes.items) }
    ensures made { (w : World) →
        Knows w unit.old →
        Made unit.new result (spec.to_pointer w cast at (core_at unit.old v) (type_of unit.old.types to.0)
        (spec.operand_of (ctype_of (core_at unit.old v)))) }
{
    let source = type_of_node(unit, v);
    match operand_of(&unit.types, source) {
        Operand::Whole => Err(CheckFault::Unsupported(Kind::NumberToPointer, at)),
        Operand::Address(from) => pointers(alloc, unit, cast, at, v, ty, from, to),
        Operand::Aggregate(_) => Err(CheckFault::BadOperand(at)),
        Operand::Other => Err(CheckFault::BadOperand(at)),
    }
}

// A value as one of an integer type, pointers too or not.
fn to_whole(
    alloc: Global,
    unit: &mut Unit,
    pointer: bool,
    at: u32,
    v: u32,
    ty: TypeId,
) -> Result<u32, CheckFault>
    requires ready { IsReady unit.old }
    requires v { v < length unit.old.nodes.items }
    requires ty { ty.0 < length unit.old.types.terms }
    ensures ready { IsReady unit.new }
    ensures builds { Builds unit.old unit.new }
    ensures within { IfOk result (λ i. i < length unit.new.nodes.items) }
    ensures made { Made unit.new result (spec.to_whole pointer at (core_at unit.old v) (type_of unit.old.types ty.0)
        (spec.operand_of (ctype_of (core_at unit.old v)))) }
{
    let source = type_of_node(unit, v);
    match operand_of(&unit.types, source) {
        Operand::Whole => converted(alloc, unit, ty, v),
        Operand::Address(_) => {
            if !pointer {
                return Err(CheckFault::BadOperand(at));
            }
            converted(alloc, unit, ty, v)
        }
        Operand::Aggregate(_) => Err(CheckFault::BadOperand(at)),
        Operand::Other => Err(CheckFault::BadOperand(at)),
    }
}

// A value as one of a type of pointers: a null constant becomes its null value.
fn null_or_pointer(
    alloc: Global,
    unit: &mut Unit,
    cast: bool,
    at: u32,
    v: u32,
    ty: TypeId,
    to: TypeId,
) -> Result<u32, CheckFault>
    requires ready { IsReady unit.old }
    requires v { v < length unit.old.nodes.items }
    requires rows { HasRows (core_at unit.old v) }
    requires ty { ty.0 < length unit.old.types.terms }
    requires pointer { type_of unit.old.types ty.0 ≡ PointerTo (type_of unit.old.types to.0) }
    requires to { to.0 < length unit.old.types.terms }
    ensures ready { IsReady unit.new }
    ensures builds { Builds unit.old unit.new }
    ensures within { IfOk result (λ i. i < length unit.new.nodes.items) }
    ensures made { (w : World) →
        Knows w unit.old →
        Made unit.new result (spec.to_other w cast at (core_at unit.old v) (PointerTo (type_of unit.old.types to.0))) }
{
    if is_null_constant(unit, v) {
        return null_value(alloc, unit, ty, v);
    }
    to_pointer(alloc, unit, cast, at, v, ty, to)
}

// A value as one of another type.
fn to_other(
    alloc: Global,
    unit: &mut Unit,
    cast: bool,
    at: u32,
    v: u32,
    ty: TypeId,
) -> Result<u32, CheckFault>
    requires ready { IsReady unit.old }
    requires v { v < length unit.old.nodes.items }
    requires rows { HasRows (core_at unit.old v) }
    requires ty { ty.0 < length unit.old.types.terms }
    ensures ready { IsReady unit.new }
    ensures builds { Builds unit.old unit.new }
    ensures within { IfOk result (λ i. i < length unit.new.nodes.items) }
    ensures made { (w : World) →
        Knows w unit.old →
        Made unit.new result (spec.to_other w cast at (core_at unit.old v) (type_of unit.old.types ty.0)) }
{
    match unit.types.term(ty) {
        Term::Void => {
            if !cast {
                return Err(CheckFault::BadOperand(at));
            }
            converted(alloc, unit, ty, v)
        }
        Term::Bool => to_whole(alloc, unit, true, at, v, ty),
        Term::Integer { .. } => to_whole(alloc, unit, cast, at, v, ty),
        Term::Pointer(to) => {
            let to = *to;
            null_or_pointer(alloc, unit, cast, at, v, ty, to)
        }
        _ => Err(CheckFault::BadOperand(at)),
    }
}

/// A value as one of a type, by the first row of the table that fits (C11 6.3, 6.5.4, 6.5.16.1), for the row of the syntax node
/// `at`. A value of the type stays as it is. By a cast, anything is converted to void. A null constant becomes a null value of a
/// pointer type. An integer is converted to another integer type; a pointer to `_Bool`, and by a cast to an integer. A pointer to
/// an object type is converted to `void *` and back, a pointer to a function to one of another function type, a pointer to a
/// pointer to another such, and a pointer to an integer to one of the same size. By a cast, a pointer to a structure goes down to
/// the first member that has the type sought.
///
/// `NumberToPointer` refuses an integer for a pointer. Between pointers, `IntegerSizeCast` refuses integers of two sizes,
/// `StructureCast` another structure or union for a structure or union, and `CharacterCast` characters for a structure. Any
/// other pair is `BadOperand`. The nodes of the value's constants stand in their rows.
pub fn conversion(
    alloc: Global,
    unit: &mut Unit,
    cast: bool,
    at: u32,
    v: u32,
    ty: TypeId,
) -> Result<u32, CheckFault>
    requires ready { IsReady unit.old }
    requires v { v < length unit.old.nodes.items }
    requires rows { HasRows (core_at unit.old v) }
    requires ty { ty.0 < length unit.old.types.terms }
    ensures ready { IsReady unit.new }
    ensures builds { Builds unit.old unit.new }
    ensures within { IfOk result (λ i. i < length unit.new.nodes.items) }
    ensures made { (w : World) →
        Knows w unit.old →
        Made unit.new result (spec.conversion w cast at (core_at unit.old v) (type_of unit.old.types ty.0)) }
{
    let from = type_of_node(unit, v);
    if same_types(&unit.types, from, ty) {
        return Ok(v);
    }
    to_other(alloc, unit, cast, at, v, ty)
}

// Names by what they mean (C11 6.5.1).
ghost use Rattle.std.specs.Prelude.{◌≡◌, ◌<◌, ◌++◌, length, drop, IfOk, OnOk, Some, Option};
ghost use Rattle.std.specs.Option.{option_copied};
ghost use Rattle.core_tree.specs.declared.node.NodeKind.TheVariants.{Named as NamedKind, Number, FunctionName};
ghost use Rattle.core_tree.specs.Rows.{int};
ghost use Rattle.c_types.specs.Table.{type_of};
ghost use Rattle.c_consts.specs.Core.{leaf};
ghost use Rattle.pta_base.specs.declared.kind.Kind.TheVariants.{Operand};
ghost use Rattle.c_senses.specs.Given.{Fits, given_if};
ghost use Rattle.c_senses.specs.World.{World, Meaning};
ghost use Rattle.c_senses.specs.Objects as spec;
ghost use Rattle.core_nodes.specs.Standing.{IsReady, Builds, Made};
ghost use Rattle.expression_rows.specs.c_rows.Named.{NameFits, IsNamedWithin};

use crate::c_rows::literals::text_node;
use c_types::term::{Term, TypeId};
use core_nodes::CheckFault;
use core_nodes::trees::{int_type, push_leaf};
use core_tree::held;
use core_tree::node::{NodeKind, Unit};
use pta_base::{Kind, Listing, Place};
use std::alloc::Global;

/// What the leaf of a name means: nothing that is declared; an object by the number of its entity, with the type that the
/// declarations of the name give together, and whether it may be named where the leaf stands; a function in the same way; the
/// value of an enumerator; or a type or a tag, which have no value.
#[derive(Clone, Copy, Debug, PartialEq, Eq)]
pub enum Named {
    Undeclared,
    Object {
        entity: u32,
        ty: TypeId,
        allowed: bool,
    },
    Function {
        entity: u32,
        ty: TypeId,
    },
    Value(i128),
    NoValue,
}

// The name of an object whose type is no floating type, if it may stand there.
fn plain_object(
    alloc: Global,
    unit: &mut Unit,
    place: Place,
    at: u32,
    entity: u32,
    ty: TypeId,
    allowed: bool,
) -> Result<u32, CheckFault>
    requires ready { IsReady unit.old }
    requires ty { ty.0 < length unit.old.types.terms }
    ensures ready { IsReady unit.new }
    ensures builds { Builds unit.old unit.new }
    ensures within { IfOk result (λ i. i < length unit.new.nodes.items) }
    ensures made { Made unit.new result
        (given_if allowed Operand at (Fits (leaf (NamedKind entity) place (type_of unit.old.types ty.0)))) }
{
    if !allowed {
        return Err(CheckFault::BadOperand(at));
    }
    push_leaf(alloc, unit, NodeKind::Named(entity), place, ty)
}

// The name of an object, which may stand there or not.
fn object_name(
    alloc: Global,
    unit: &mut Unit,
    place: Place,
    at: u32,
    entity: u32,
    ty: TypeId,
    allowed: bool,
) -> Result<u32, CheckFault>
    requires ready { IsReady unit.old }
    requires ty { ty.0 < length unit.old.types.terms }
    ensures ready { IsReady unit.new }
    ensures builds { Builds unit.old unit.new }
    ensures within { IfOk result (λ i. i < length unit.new.nodes.items) }
    ensures made { (w : World) →
        w.may_name entity ≡ allowed →
        Made unit.new result (spec.object_name w place at entity (type_of unit.old.types ty.0)) }
{
    match unit.types.term(ty) {
        Term::Floating => Err(CheckFault::Unsupported(Kind::Floating, at)),
        Term::VaList => plain_object(alloc, unit, place, at, entity, ty, allowed),
        Term::Void => plain_object(alloc, unit, place, at, entity, ty, allowed),
        Term::Bool => plain_object(alloc, unit, place, at, entity, ty, allowed),
        Term::Integer { .. } => plain_object(alloc, unit, place, at, entity, ty, allowed),
        Term::Pointer(_) => plain_object(alloc, unit, place, at, entity, ty, allowed),
        Term::Array { .. } => plain_object(alloc, unit, place, at, entity, ty, allowed),
        Term::Function { .. } => plain_object(alloc, unit, place, at, entity, ty, allowed),
        Term::Structure(_) => plain_object(alloc, unit, place, at, entity, ty, allowed),
        Term::Union(_) => plain_object(alloc, unit, place, at, entity, ty, allowed),
    }
}

// The number of an enumerator.
fn enumerator(alloc: Global, unit: &mut Unit, place: Place, value: i128) -> Result<u32, CheckFault>
    requires ready { IsReady unit.old }
    ensures ready { IsReady unit.new }
    ensures builds { Builds unit.old unit.new }
    ensures within { IfOk result (λ i. i < length unit.new.nodes.items) }
    ensures made { Made unit.new result (Fits (leaf (Number value) place int)) }
{
    let int = int_type(unit)?;
    push_leaf(
        alloc,
        unit,
        NodeKind::Number(held::Number::of(value)),
        place,
        int,
    )
}

// The function's own name, as a string; outside of a body nothing has it.
fn own_name_row(
    alloc: Global,
    unit: &mut Unit,
    place: Place,
    at: u32,
    own_name: Option<&[u8]>,
) -> Result<u32, CheckFault>
    requires ready { IsReady unit.old }
    ensures ready { IsReady unit.new }
    ensures builds { Builds unit.old unit.new }
    ensures within { IfOk result (λ i. i < length unit.new.nodes.items) }
    ensures made { (w : World) →
        w.own_name ≡ option_copied own_name.entry → Made unit.new result (spec.own_name_row w place at) }
{
    match own_name {
        Some(name) => {
            let bytes = Vec::from_slice(alloc, name)?;
            text_node(alloc, unit, place, Listing::of(bytes))
        }
        None => Err(CheckFault::BadOperand(at)),
    }
}

/// A name by what it means (C11 6.5.1, 6.4.2.2). The own name of the function whose body is read is asked where nothing is declared.
pub fn name_row(
    alloc: Global,
    unit: &mut Unit,
    place: Place,
    at: u32,
    named: Named,
    own_name: Option<&[u8]>,
) -> Result<u32, CheckFault>
    requires ready { IsReady unit.old }
    requires named { IsNamedWithin unit.old named }
    ensures ready { IsReady unit.new }
    ensures builds { Builds unit.old unit.new }
    ensures within { IfOk result (λ i. i < length unit.new.nodes.items) }
    ensures made { (w : World) (m : Option Meaning) →
        NameFits w unit.old named (option_copied own_name.entry) m → Made unit.new result (spec.name_row w place at m) }
{
    match named {
        Named::Undeclared => own_name_row(alloc, unit, place, at, own_name),
        Named::Object {
            entity,
            ty,
            allowed,
        } => object_name(alloc, unit, place, at, entity, ty, allowed),
        Named::Function { entity, ty } => push_leaf(
            alloc,
            unit,
            NodeKind::FunctionName(entity),
            place,
            ty,
        ),
        Named::Value(value) => enumerator(alloc, unit, place, value),
        Named::NoValue => Err(CheckFault::BadOperand(at)),
    }
}

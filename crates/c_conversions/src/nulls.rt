// Null constants (C11 6.3.2.3p3).
#![tactic(auto, using(core_nodes::proofs::IntegerTypes::integers))]

ghost use Rattle.std.specs.Prelude.{◌≡◌, ◌<◌, length, pos, IfOk, true};
ghost use Rattle.std.specs.Ordering.{int_eq};
ghost use Rattle.c_types.specs.Trees.{PointerTo};
ghost use Rattle.c_types.specs.Table.{type_of};
ghost use Rattle.c_consts.specs.Core.{kind_of, ctype_of};
ghost use Rattle.c_consts.specs.Answer.{answer};
ghost use Rattle.core_nodes.specs.passed.c_senses.Given.{Fits};
ghost use Rattle.core_nodes.specs.passed.c_senses.Nulls.{is_void_pointer, is_null_pointer, is_zero_found, is_null};
ghost use Rattle.core_nodes.specs.passed.c_senses.Conversions.{converted as converted_spec, null_value as null_spec};
ghost use Rattle.core_nodes.specs.Standing.{core_at, IsReady, Builds, Made};
ghost use Rattle.c_conversions.specs.Constants.{HasRows};

use c_consts::constant;
use c_types::table::TypeTable;
use c_types::term::{Term, TypeId};
use core_nodes::CheckFault;
use core_nodes::reads::{kind_of_node, place_of_node, type_of_node};
use core_nodes::trees::{push_leaf, push_over};
use core_tree::node::{NodeKind, Unit};
use std::alloc::Global;

// Whether a type is void.
fn is_void(types: &TypeTable, ty: TypeId) -> bool
    requires { ty.0 < length types.now.terms }
    ensures { result ≡ is_void_pointer (PointerTo (type_of types.now ty.0)) }
{
    match types.term(ty) {
        Term::Void => true,
        _ => false,
    }
}

// Whether a type is that of pointers to void.
fn is_void_pointer(types: &TypeTable, ty: TypeId) -> bool
    requires { ty.0 < length types.now.terms }
    ensures { result ≡ is_void_pointer (type_of types.now ty.0) }
{
    match types.term(ty) {
        Term::Pointer(to) => is_void(types, *to),
        _ => false,
    }
}

// Whether a node is a null value of the type of pointers to void.
fn is_void_null(unit: &Unit, node: u32) -> bool
    requires ready { IsReady unit.now }
    requires node { node < length unit.now.nodes.items }
    ensures { result ≡ is_null_pointer (kind_of (core_at unit.now node)) (ctype_of (core_at unit.now node)) }
{
    let ty = type_of_node(unit, node);
    match kind_of_node(unit, node) {
        NodeKind::NullValue => is_void_pointer(&unit.types, ty),
        _ => false,
    }
}

// Whether a number is 0.
fn is_zero_number(value: i128) -> bool
    ensures { result ≡ int_eq value (pos 0) }
{
    value == 0
}

// Whether a node is an integer constant expression of the value 0.
fn is_zero(unit: &Unit, node: u32) -> bool
    requires ready { IsReady unit.now }
    requires node { node < length unit.now.nodes.items }
    requires rows { HasRows (core_at unit.now node) }
    ensures { result ≡ is_zero_found (answer (core_at unit.now node) true) }
{
    let nodes = unit.nodes.as_slice();
    match constant(&unit.types, nodes, node) {
        Ok(value) => is_zero_number(value),
        Err(_) => false,
    }
}

/// Whether a value is a null constant (C11 6.3.2.3p3): an integer constant expression of the value 0, computed where it has
/// operators, or a null value of the type `void *`. The nodes of the value's constants stand in their rows.
pub fn is_null_constant(unit: &Unit, node: u32) -> bool
    requires ready { IsReady unit.now }
    requires node { node < length unit.now.nodes.items }
    requires rows { HasRows (core_at unit.now node) }
    ensures { result ≡ is_null (core_at unit.now node) }
{
    is_void_null(unit, node) || is_zero(unit, node)
}

/// The null value of a type, in place of a null constant.
pub fn null_value(alloc: Global, unit: &mut Unit, ty: TypeId, node: u32) -> Result<u32, CheckFault>
    requires ready { IsReady unit.old }
    requires ty { ty.0 < length unit.old.types.terms }
    requires node { node < length unit.old.nodes.items }
    ensures ready { IsReady unit.new }
    ensures builds { Builds unit.old unit.new }
    ensures within { IfOk result (λ i. i < length unit.new.nodes.items) }
    ensures made { Made unit.new result (Fits (null_spec (type_of unit.old.types ty.0) (core_at unit.old node))) }
{
    let place = place_of_node(unit, node);
    push_leaf(alloc, unit, NodeKind::NullValue, place, ty)
}

/// A value converted to another type.
pub fn converted(alloc: Global, unit: &mut Unit, ty: TypeId, node: u32) -> Result<u32, CheckFault>
    requires ready { IsReady unit.old }
    requires ty { ty.0 < length unit.old.types.terms }
    requires node { node < length unit.old.nodes.items }
    ensures ready { IsReady unit.new }
    ensures builds { Builds unit.old unit.new }
    ensures within { IfOk result (λ i. i < length unit.new.nodes.items) }
    ensures made { Made unit.new result (Fits (converted_spec (type_of unit.old.types ty.0) (core_at unit.old node))) }
{
    let place = place_of_node(unit, node);
    push_over(alloc, unit, NodeKind::Convert, place, ty, node)
}

// The value of an expression, and conversions of integers (C11 6.3.1, 6.3.2.1).
ghost use Rattle.std.specs.Prelude.{◌≡◌, ◌<◌, length, IfOk, Some, None};
ghost use Rattle.c_types.specs.Trees.{Ctype};
ghost use Rattle.c_types.specs.Table.{type_of};
ghost use Rattle.core_tree.specs.Typed.{decayed};
ghost use Rattle.c_senses.specs.passed.c_consts.Core.{ctype_of};
ghost use Rattle.c_senses.specs.Given.{Fits};
ghost use Rattle.c_senses.specs.World.{World};
ghost use Rattle.c_senses.specs.Conversions.{value_of, fetched_or_decayed, made, promotion, common, read_width, is_narrow};
ghost use Rattle.c_senses.specs.Conversions.{promoted, place_width};
ghost use Rattle.core_nodes.specs.Standing.{core_at, IsReady, Builds, Made, TypeMade, Knows};

use crate::CheckFault;
use crate::reads::{is_place, is_value, place_of_node, type_of_node};
use crate::sorts::{decayed, is_fetched, is_list, operand_of, same_types};
use crate::trees::{add_type, int_type, pointer_type, push_over};
use c_types::table::TypeTable;
use c_types::term::{Term, TypeId};
use core_tree::node::{NodeKind, Unit};
use std::alloc::Global;

/// The value of an expression, for the row of a syntax node.
pub fn value(alloc: Global, unit: &mut Unit, at: u32, node: u32) -> Result<u32, CheckFault>
    requires ready { IsReady unit.old }
    requires node { node < length unit.old.nodes.items }
    ensures ready { IsReady unit.new }
    ensures builds { Builds unit.old unit.new }
    ensures within { IfOk result (λ i. i < length unit.new.nodes.items) }
    ensures made { (w : World) → Knows w unit.old → Made unit.new result (value_of w at (core_at unit.old node)) }
{
    if is_value(unit, node) {
        return Ok(node);
    }
    if !is_place(unit, node) {
        return Err(CheckFault::BadOperand(at));
    }
    place_value(alloc, unit, at, node)
}

// The value of a place.
#[tactic(auto, using(crate::proofs::Growing::builds_on))]
fn place_value(alloc: Global, unit: &mut Unit, at: u32, node: u32) -> Result<u32, CheckFault>
    requires ready { IsReady unit.old }
    requires node { node < length unit.old.nodes.items }
    ensures ready { IsReady unit.new }
    ensures builds { Builds unit.old unit.new }
    ensures within { IfOk result (λ i. i < length unit.new.nodes.items) }
    ensures made { (w : World) →
        Knows w unit.old →
        Made unit.new result
        (fetched_or_decayed w at (core_at unit.old node) (decayed (ctype_of (core_at unit.old node)))) }
{
    let ty = type_of_node(unit, node);
    let place = place_of_node(unit, node);
    match decayed(&unit.types, ty) {
        Some(to) => {
            let pointer = pointer_type(unit, to)?;
            push_over(alloc, unit, NodeKind::Decay, place, pointer, node)
        }
        None => {
            if !is_fetched(unit, operand_of(&unit.types, ty)) && !is_list(&unit.types, ty) {
                return Err(CheckFault::BadOperand(at));
            }
            push_over(alloc, unit, NodeKind::Fetch, place, ty, node)
        }
    }
}

/// A value as one of a type: a Convert stands only where the type changes.
pub fn as_type(alloc: Global, unit: &mut Unit, ty: TypeId, node: u32) -> Result<u32, CheckFault>
    requires ready { IsReady unit.old }
    requires ty { ty.0 < length unit.old.types.terms }
    requires node { node < length unit.old.nodes.items }
    ensures ready { IsReady unit.new }
    ensures builds { Builds unit.old unit.new }
    ensures within { IfOk result (λ i. i < length unit.new.nodes.items) }
    ensures made { Made unit.new result (Fits (made (type_of unit.old.types ty.0) (core_at unit.old node))) }
{
    let from = type_of_node(unit, node);
    if same_types(&unit.types, from, ty) {
        return Ok(node);
    }
    let place = place_of_node(unit, node);
    push_over(alloc, unit, NodeKind::Convert, place, ty, node)
}

// Returns (C11 6.8.6.4).
ghost use Rattle.std.specs.Prelude.{◌<◌, ℕ, List, length, All, IfOk, IfSome};
ghost use Rattle.c_types.specs.Table.{type_of};
ghost use Rattle.c_senses.specs.World.{World};
ghost use Rattle.c_senses.specs.Sense.{sense_in};
ghost use Rattle.c_senses.specs.Statements as spec;
ghost use Rattle.core_nodes.specs.Standing.{IsReady, Builds, Made as CoreMade, Knows};
ghost use Rattle.c_results.specs.Standing.{senses_made, IsWithin, TypeSeen};
ghost use Rattle.c_conversions.specs.constant_values.Constants.{HasConstants};
ghost use Rattle.tree_reads.specs.Sources.{source_in};
ghost use Rattle.c_statements.specs.Others.{returned};

use crate::parts::void_type;
use c_conversions::table::conversion;
use c_conversions::values::value;
use c_grammar::productions::EXPRESSION;
use c_results::{Results, node_at};
use c_types::term::TypeId;
use core_nodes::CheckFault;
use core_nodes::trees::{push_leaf, push_over};
use core_tree::node::{NodeKind, Unit};
use std::alloc::Global;
use tree_reads::{Syntax, Test, first_where, place_of};

// The value of an expression as one of the type that a function returns.
fn returned_value(
    alloc: Global,
    unit: &mut Unit,
    results: &Results,
    at: u32,
    part: u32,
    ty: TypeId,
) -> Result<u32, CheckFault>
    requires ready { IsReady unit.old }
    requires results { All (IsWithin unit.old) results.now }
    requires rows { All (HasConstants unit.old) results.now }
    requires ty { ty.0 < length unit.old.types.terms }
    ensures ready { IsReady unit.new }
    ensures builds { Builds unit.old unit.new }
    ensures within { IfOk result (λ i. i < length unit.new.nodes.items) }
    ensures made { (w : World) →
        Knows w unit.old →
        CoreMade unit.new result
        (returned w at (sense_in (senses_made unit.old results.now) part) (type_of unit.old.types ty.0)) }
{
    let Some(node) = node_at(results, part) else {
        return Err(CheckFault::BadOperand(at));
    };
    let value = match value(alloc, unit, at, node) {
        Ok(value) => value,
        Err(fault) => return Err(fault),
    };
    conversion(alloc, unit, false, at, value, ty)
}

/// The row of a return (C11 6.8.6.4): its expression, if it has one, converted as by assignment to `returned`, the type that
/// the function around it returns. It is `operand` at `at` where no function is around it or its expression has no value, and
/// else refused as the conversion is.
pub fn return_row(
    alloc: Global,
    unit: &mut Unit,
    syntax: &Syntax,
    results: &Results,
    returned: Option<TypeId>,
    at: u32,
    children: &[u32],
) -> Result<u32, CheckFault>
    requires ready { IsReady unit.old }
    requires results { All (IsWithin unit.old) results.now }
    requires rows { All (HasConstants unit.old) results.now }
    requires returned { IfSome returned (λ t. t.0 < length unit.old.types.terms) }
    ensures ready { IsReady unit.new }
    ensures builds { Builds unit.old unit.new }
    ensures within { IfOk result (λ i. i < length unit.new.nodes.items) }
    ensures made { (w : World) (uses : List (ℕ × ℕ)) →
        Knows w unit.old →
        let s = source_in syntax.now uses in
        let sense = sense_in (senses_made unit.old results.now) in
        TypeSeen unit.old returned (spec.returned_type w s sense at) →
        CoreMade unit.new result (spec.return_row w s sense at (spec.expression_in w s sense children.now)) }
{
    let Some(part) = first_where(syntax, Test::IsA(EXPRESSION), children) else {
        let ty = match void_type(unit) {
            Ok(ty) => ty,
            Err(_) => return Err(CheckFault::OutOfMemory),
        };
        return push_leaf(alloc, unit, NodeKind::Return, place_of(syntax, at), ty);
    };
    let Some(ty) = returned else {
        return Err(CheckFault::BadOperand(at));
    };
    let node = match returned_value(alloc, unit, results, at, part, ty) {
        Ok(node) => node,
        Err(fault) => return Err(fault),
    };
    let void = match void_type(unit) {
        Ok(void) => void,
        Err(_) => return Err(CheckFault::OutOfMemory),
    };
    push_over(
        alloc,
        unit,
        NodeKind::Return,
        place_of(syntax, at),
        void,
        node,
    )
}

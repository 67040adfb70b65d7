// Casts (C11 6.5.4).
ghost use Rattle.std.specs.Prelude.{◌≡◌, ◌<◌, length, IfOk, All};
ghost use Rattle.c_senses.specs.World.{World};
ghost use Rattle.c_senses.specs.Tree.{Source};
ghost use Rattle.c_senses.specs.Sense.{sense_in};
ghost use Rattle.c_senses.specs.Expressions as expressions;
ghost use Rattle.core_nodes.specs.Standing.{IsReady, Builds, Made as CoreMade, Knows};
ghost use Rattle.c_results.specs.Standing.{senses_made, IsWithin, Rowed};
ghost use Rattle.tree_reads.specs.Sources.{source_read};
ghost use Rattle.expression_rows.specs.whole_rows.Constants.{HaveRowsMade};
ghost use Rattle.expression_rows.specs.whole_rows.Whole as spec;

use crate::c_rows::parts::{behind_first, passed_on, sensed, type_of};
use crate::whole_rows::operands::operand_of;
use c_grammar::productions::CAST;
use c_results::{Made, Results};
use core_nodes::CheckFault;
use core_tree::node::Unit;
use std::alloc::Global;
use tree_reads::{Syntax, Test, is_a, is_leaf, last_where};
use value_rows::assignments::cast_row as cast_node;

// A cast over its type and its operand.
fn cast_parts(
    alloc: Global,
    unit: &mut Unit,
    results: &Results,
    at: u32,
    named: u32,
    operand: u32,
) -> Result<u32, CheckFault>
    requires ready { IsReady unit.old }
    requires within { All (IsWithin unit.old) results.now }
    requires rows { HaveRowsMade unit.old results.now }
    ensures ready { IsReady unit.new }
    ensures builds { Builds unit.old unit.new }
    ensures within { IfOk result (λ i. i < length unit.new.nodes.items) }
    ensures made { (w : World) (s : Source) →
        Knows w unit.old →
        let sense = sense_in (senses_made unit.old results.now) in
        CoreMade unit.new result (spec.cast_parts w s sense at named operand) }
{
    let ty = match type_of(unit, results, at, named) {
        Ok(ty) => ty,
        Err(fault) => return Err(fault),
    };
    match operand_of(unit, results, at, operand) {
        Ok(node) => cast_node(alloc, unit, at, node, ty),
        Err(fault) => Err(fault),
    }
}

/// The row of a cast (C11 6.5.4); a unary expression, and a compound literal with what follows it, are passed on.
pub fn cast_row(
    alloc: Global,
    unit: &mut Unit,
    syntax: &Syntax,
    results: &Results,
    at: u32,
    children: &[u32],
) -> Result<Made, CheckFault>
    requires ready { IsReady unit.old }
    requires within { All (IsWithin unit.old) results.now }
    requires rows { HaveRowsMade unit.old results.now }
    ensures ready { IsReady unit.new }
    ensures builds { Builds unit.old unit.new }
    ensures within { IfOk result (IsWithin unit.new) }
    ensures row { (w : World) →
        Knows w unit.old →
        let sense = sense_in (senses_made unit.old results.now) in
        Rowed unit.new result (expressions.cast_row_of w (source_read syntax.now) sense at children.now) }
{
    if children.is_empty() {
        return Err(CheckFault::BadOperand(at));
    }
    if !is_leaf(syntax, children[0]) {
        return passed_on(alloc, results, children[0]);
    }
    let rest = behind_first(children);
    match last_where(syntax, Test::Inner, rest) {
        Some(part) => {
            if !is_a(syntax, CAST, part) {
                return passed_on(alloc, results, part);
            }
            if rest.is_empty() {
                return Err(CheckFault::BadOperand(at));
            }
            sensed(cast_parts(alloc, unit, results, at, rest[0], part))
        }
        None => Err(CheckFault::BadOperand(at)),
    }
}

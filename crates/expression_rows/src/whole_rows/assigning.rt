// Assignments (C11 6.5.16).
ghost use Rattle.std.specs.Prelude.{◌≡◌, ◌<◌, length, IfOk, All};
ghost use Rattle.c_senses.specs.World.{World};
ghost use Rattle.c_senses.specs.Sense.{sense_in};
ghost use Rattle.c_senses.specs.Expressions as expressions;
ghost use Rattle.core_nodes.specs.Standing.{IsReady, Builds, Made as CoreMade, Knows};
ghost use Rattle.c_results.specs.Standing.{senses_made, IsWithin, Rowed};
ghost use Rattle.tree_reads.specs.Sources.{source_read};
ghost use Rattle.expression_rows.specs.whole_rows.Constants.{HaveRowsMade};
ghost use Rattle.expression_rows.specs.whole_rows.Whole as spec;

use crate::c_rows::parts::{passed_on, sensed};
use crate::whole_rows::operands::operand_of;
use c_results::{Made, Results};
use core_nodes::CheckFault;
use core_tree::node::Unit;
use std::alloc::Global;
use tree_reads::{Syntax, place_of, sign_of};
use value_rows::assignments::assignment;

// An assignment over its parts.
fn assigned_parts(
    alloc: Global,
    unit: &mut Unit,
    syntax: &Syntax,
    results: &Results,
    at: u32,
    left: u32,
    operator: u32,
    right: u32,
) -> Result<u32, CheckFault>
    requires ready { IsReady unit.old }
    requires within { All (IsWithin unit.old) results.now }
    requires rows { HaveRowsMade unit.old results.now }
    ensures ready { IsReady unit.new }
    ensures builds { Builds unit.old unit.new }
    ensures within { IfOk result (λ i. i < length unit.new.nodes.items) }
    ensures made { (w : World) →
        Knows w unit.old →
        let sense = sense_in (senses_made unit.old results.now) in
        CoreMade unit.new result (spec.assigned_parts w (source_read syntax.now) sense at left operator right) }
{
    let p = match operand_of(unit, results, at, left) {
        Ok(node) => node,
        Err(fault) => return Err(fault),
    };
    let b = match operand_of(unit, results, at, right) {
        Ok(node) => node,
        Err(fault) => return Err(fault),
    };
    let place = place_of(syntax, operator);
    match sign_of(syntax, operator) {
        Some(sign) => assignment(alloc, unit, sign, place, at, p, b),
        None => Err(CheckFault::BadOperand(at)),
    }
}

/// The row of an assignment (C11 6.5.16); what has no operator is passed on.
pub fn assignment_row(
    alloc: Global,
    unit: &mut Unit,
    syntax: &Syntax,
    results: &Results,
    at: u32,
    children: &[u32],
) -> Result<Made, CheckFault>
    requires ready { IsReady unit.old }
    requires within { All (IsWithin unit.old) results.now }
    requires rows { HaveRowsMade unit.old results.now }
    ensures ready { IsReady unit.new }
    ensures builds { Builds unit.old unit.new }
    ensures within { IfOk result (IsWithin unit.new) }
    ensures row { (w : World) →
        Knows w unit.old →
        let sense = sense_in (senses_made unit.old results.now) in
        Rowed unit.new result (expressions.assignment_row w (source_read syntax.now) sense at children.now) }
{
    match children {
        [part] => passed_on(alloc, results, *part),
        [left, operator, right] => sensed(assigned_parts(
            alloc, unit, syntax, results, at, *left, *operator, *right,
        )),
        _ => Err(CheckFault::BadOperand(at)),
    }
}

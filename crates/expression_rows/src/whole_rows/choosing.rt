// Choices (C11 6.5.15).
ghost use Rattle.std.specs.Prelude.{◌≡◌, ◌<◌, length, IfOk, All};
ghost use Rattle.c_senses.specs.World.{World};
ghost use Rattle.c_senses.specs.Tree.{Source};
ghost use Rattle.c_senses.specs.Sense.{sense_in};
ghost use Rattle.c_senses.specs.Expressions as expressions;
ghost use Rattle.core_nodes.specs.Standing.{IsReady, Builds, Made as CoreMade, Knows};
ghost use Rattle.c_results.specs.Standing.{senses_made, IsWithin, Rowed};
ghost use Rattle.tree_reads.specs.Sources.{source_read};
ghost use Rattle.expression_rows.specs.whole_rows.Constants.{HaveRowsMade};
ghost use Rattle.expression_rows.specs.whole_rows.Whole as spec;

use crate::c_rows::parts::{passed_on, sensed};
use crate::whole_rows::operands::value_of;
use c_results::{Made, Results};
use core_nodes::CheckFault;
use core_tree::node::Unit;
use pta_base::Place;
use std::alloc::Global;
use tree_reads::{Syntax, place_of};
use value_rows::choices::choice_row;

// A choice over its parts.
fn chosen_parts(
    alloc: Global,
    unit: &mut Unit,
    results: &Results,
    place: Place,
    at: u32,
    condition: u32,
    left: u32,
    right: u32,
) -> Result<u32, CheckFault>
    requires ready { IsReady unit.old }
    requires within { All (IsWithin unit.old) results.now }
    requires rows { HaveRowsMade unit.old results.now }
    ensures ready { IsReady unit.new }
    ensures builds { Builds unit.old unit.new }
    ensures within { IfOk result (λ i. i < length unit.new.nodes.items) }
    ensures made { (w : World) (s : Source) →
        Knows w unit.old →
        let sense = sense_in (senses_made unit.old results.now) in
        CoreMade unit.new result (spec.chosen_parts w s sense place at condition left right) }
{
    let c = match value_of(alloc, unit, results, at, condition) {
        Ok(node) => node,
        Err(fault) => return Err(fault),
    };
    let a = match value_of(alloc, unit, results, at, left) {
        Ok(node) => node,
        Err(fault) => return Err(fault),
    };
    let b = match value_of(alloc, unit, results, at, right) {
        Ok(node) => node,
        Err(fault) => return Err(fault),
    };
    choice_row(alloc, unit, place, at, c, a, b)
}

/// The row of a choice (C11 6.5.15); what has no condition is passed on.
pub fn conditional_row(
    alloc: Global,
    unit: &mut Unit,
    syntax: &Syntax,
    results: &Results,
    at: u32,
    children: &[u32],
) -> Result<Made, CheckFault>
    requires ready { IsReady unit.old }
    requires within { All (IsWithin unit.old) results.now }
    requires rows { HaveRowsMade unit.old results.now }
    ensures ready { IsReady unit.new }
    ensures builds { Builds unit.old unit.new }
    ensures within { IfOk result (IsWithin unit.new) }
    ensures row { (w : World) →
        Knows w unit.old →
        let sense = sense_in (senses_made unit.old results.now) in
        Rowed unit.new result (expressions.conditional_row w (source_read syntax.now) sense at children.now) }
{
    match children {
        [part] => passed_on(alloc, results, *part),
        [condition, question, left, _, right] => {
            let place = place_of(syntax, *question);
            sensed(chosen_parts(alloc, unit, results, place, at, *condition, *left, *right))
        }
        _ => Err(CheckFault::BadOperand(at)),
    }
}

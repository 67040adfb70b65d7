// Rows of designators (C11 6.7.9p6).
ghost use Rattle.std.specs.Prelude.{◌≡◌, ◌<◌, ℕ, List, All, IfOk, length};
ghost use Rattle.c_senses.specs.World.{World};
ghost use Rattle.c_senses.specs.Sense.{sense_in};
ghost use Rattle.c_senses.specs.Initialised as spec;
ghost use Rattle.core_nodes.specs.Standing.{IsReady, Knows};
ghost use Rattle.c_conversions.specs.constant_values.Constants.{HasConstants};
ghost use Rattle.c_results.specs.Standing.{senses_made, IsWithin, Rowed};
ghost use Rattle.tree_reads.specs.Sources.{source_in};

use c_conversions::constant_values::constant_in;
use c_grammar::productions::CONDITIONAL;
use c_results::{Made, Number, Results};
use core_nodes::CheckFault;
use core_tree::node::Unit;
use tree_reads::{Syntax, child_of, has_sign};

const SIGN_LEFT_BRACKET: u8 = 0;

/// The row of a designator (C11 6.7.9p6, p7): an index is an integer constant; a name behind a dot has no sense of its own. It is
/// `operand` at `at` where no expression is in it, and else refused as by `constant_in`.
pub fn designator_row(
    unit: &Unit,
    syntax: &Syntax,
    results: &Results,
    at: u32,
    children: &[u32],
) -> Result<Made, CheckFault>
    requires ready { IsReady unit.now }
    requires results { All (IsWithin unit.now) results.now }
    requires rows { All (HasConstants unit.now) results.now }
    ensures within { IfOk result (IsWithin unit.now) }
    ensures row { (w : World) (uses : List (ℕ × ℕ)) →
        Knows w unit.now →
        let sense = sense_in (senses_made unit.now results.now) in
        Rowed unit.now result (spec.designator_row w (source_in syntax.now uses) sense at children.now) }
{
    if children.is_empty() {
        return Err(CheckFault::BadOperand(at));
    }
    if !has_sign(syntax, SIGN_LEFT_BRACKET, children[0]) {
        return Ok(Made::Nothing);
    }
    let Some(child) = child_of(syntax, CONDITIONAL, at) else {
        return Err(CheckFault::BadOperand(at));
    };
    match constant_in(unit, syntax, results, at, child) {
        Ok(index) => Ok(Made::Value(Number::of(index))),
        Err(fault) => Err(fault),
    }
}

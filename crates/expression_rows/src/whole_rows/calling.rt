// Calls (C11 6.5.2.2), and what else stands behind an operand.
ghost use Rattle.std.specs.Prelude.{◌≡◌, ◌<◌, length, IfOk, All};
ghost use Rattle.c_senses.specs.World.{World};
ghost use Rattle.c_senses.specs.Sense.{sense_in};
ghost use Rattle.c_senses.specs.Expressions as expressions;
ghost use Rattle.core_nodes.specs.Standing.{core_at, IsReady, Builds, Made as CoreMade, Knows};
ghost use Rattle.c_conversions.specs.Constants.{HasRows};
ghost use Rattle.c_results.specs.Standing.{senses_made, IsWithin, Rowed};
ghost use Rattle.tree_reads.specs.Sources.{source_read};
ghost use Rattle.expression_rows.specs.whole_rows.Calls as spec;
ghost use Rattle.expression_rows.specs.whole_rows.Calls.{CoresGiven};
ghost use Rattle.expression_rows.specs.whole_rows.Constants.{HaveRowsMade};

use crate::c_rows::other_post;
use crate::c_rows::parts::{behind_first, sensed};
use crate::whole_rows::operands::operand_of;
use c_results::{Made, Results};
use core_nodes::CheckFault;
use core_tree::node::Unit;
use pta_base::Listing;
use std::alloc::Global;
use tree_reads::{Syntax, is_leaf, left_of, place_of, sign_of};
use value_rows::calls::call_row;

const SIGN_LEFT_PARENTHESIS: u8 = 2;

// The core nodes of a call's arguments, which are the parts that are no tokens; the first that stands for none is refused.
fn arguments_of(
    alloc: Global,
    unit: &Unit,
    syntax: &Syntax,
    results: &Results,
    at: u32,
    parts: &[u32],
) -> Result<Listing<u32>, CheckFault>
    requires within { All (IsWithin unit.now) results.now }
    requires rows { HaveRowsMade unit.now results.now }
    ensures within { IfOk result (λ is. All (λ i. i < length unit.now.nodes.items) is) }
    ensures rows { IfOk result (λ is. All (λ i. HasRows (core_at unit.now i)) is) }
    ensures made { (w : World) →
        let sense = sense_in (senses_made unit.now results.now) in
        CoresGiven unit.now result (spec.argument_cores w (source_read syntax.now) sense at parts.now) }
{
    let mut nodes = Vec::new(alloc);
    for k in 0..parts.len() {
        let part = parts[k];
        if !is_leaf(syntax, part) {
            match operand_of(unit, results, at, part) {
                Ok(node) => nodes.push(node)?,
                Err(fault) => return Err(fault),
            }
        }
    }
    Ok(Listing::of(nodes))
}

// A call over what stands to the left of its parenthesis and the parts behind it.
fn call_parts(
    alloc: Global,
    unit: &mut Unit,
    syntax: &Syntax,
    results: &Results,
    at: u32,
    first: u32,
    parts: &[u32],
    may_call: bool,
) -> Result<u32, CheckFault>
    requires ready { IsReady unit.old }
    requires within { All (IsWithin unit.old) results.now }
    requires rows { HaveRowsMade unit.old results.now }
    ensures ready { IsReady unit.new }
    ensures builds { Builds unit.old unit.new }
    ensures within { IfOk result (λ i. i < length unit.new.nodes.items) }
    ensures made { (w : World) →
        Knows w unit.old →
        w.may_call ≡ may_call →
        let sense = sense_in (senses_made unit.old results.now) in
        CoreMade unit.new result (spec.call_parts w (source_read syntax.now) sense at first parts.now) }
{
    let left = left_of(syntax, first);
    let place = place_of(syntax, first);
    let f = match operand_of(unit, results, at, left) {
        Ok(node) => node,
        Err(fault) => return Err(fault),
    };
    match arguments_of(alloc, unit, syntax, results, at, parts) {
        Ok(nodes) => call_row(alloc, unit, may_call, place, at, f, nodes.as_slice()),
        Err(fault) => Err(fault),
    }
}

/// The row of what stands behind an operand, by its punctuator (C11 6.5.2). Where `may_call` is false, as in the initialiser of an
/// object that lasts, a call is refused.
pub fn post_row(
    alloc: Global,
    unit: &mut Unit,
    syntax: &Syntax,
    results: &Results,
    at: u32,
    children: &[u32],
    may_call: bool,
) -> Result<Made, CheckFault>
    requires ready { IsReady unit.old }
    requires within { All (IsWithin unit.old) results.now }
    requires rows { HaveRowsMade unit.old results.now }
    ensures ready { IsReady unit.new }
    ensures builds { Builds unit.old unit.new }
    ensures within { IfOk result (IsWithin unit.new) }
    ensures row { (w : World) →
        Knows w unit.old →
        w.may_call ≡ may_call →
        let sense = sense_in (senses_made unit.old results.now) in
        Rowed unit.new result (expressions.post_row w (source_read syntax.now) sense at children.now) }
{
    if children.is_empty() {
        return Err(CheckFault::BadOperand(at));
    }
    let first = children[0];
    let Some(sign) = sign_of(syntax, first) else {
        return Err(CheckFault::BadOperand(at));
    };
    if sign == SIGN_LEFT_PARENTHESIS {
        let parts = behind_first(children);
        return sensed(call_parts(alloc, unit, syntax, results, at, first, parts, may_call));
    }
    let left = left_of(syntax, first);
    other_post(alloc, unit, syntax, results, at, left, sign, children)
}

// Operators between operands, from the left (C11 6.5.5 to 6.5.14, 6.5.17).
ghost use Rattle.std.specs.Prelude.{◌≡◌, ◌<◌, if◌then◌else◌, length, IfOk, All};
ghost use Rattle.c_senses.specs.World.{World};
ghost use Rattle.c_senses.specs.Sense.{sense_in};
ghost use Rattle.c_senses.specs.Expressions.{chained as chained_spec, binary_row as binary_spec};
ghost use Rattle.c_senses.specs.Operators.{between as between_spec};
ghost use Rattle.c_operators.specs.Seen.{operator_seen};
ghost use Rattle.core_nodes.specs.Standing.{core_at, IsReady, Builds, Made as CoreMade, Knows};
ghost use Rattle.c_results.specs.Standing.{senses_made, IsWithin, Rowed};
ghost use Rattle.tree_reads.specs.Sources.{source_read};
ghost use Rattle.c_conversions.specs.Constants.{HasRows};
ghost use Rattle.expression_rows.specs.whole_rows.Constants.{HaveRowsMade};
ghost use Rattle.expression_rows.specs.whole_rows.Whole.{joined_values as joined_spec, linked as linked_spec};

use crate::c_rows::parts::{behind_first, passed_on, sensed};
use crate::whole_rows::operands::operand_of;
use c_conversions::values::value;
use c_operators::operators::{Operator, operator_of};
use c_results::{Made, Results};
use core_nodes::CheckFault;
use core_tree::node::Unit;
use pta_base::Place;
use std::alloc::Global;
use tree_reads::{Syntax, place_of, sign_of};
use value_rows::equality::between;

// An operator over the values of two operands.
fn joined_values(
    alloc: Global,
    unit: &mut Unit,
    operator: Operator,
    place: Place,
    named: u32,
    a: u32,
    b: u32,
) -> Result<u32, CheckFault>
    requires ready { IsReady unit.old }
    requires a { a < length unit.old.nodes.items }
    requires b { b < length unit.old.nodes.items }
    requires left { HasRows (core_at unit.old a) }
    requires right { HasRows (core_at unit.old b) }
    ensures ready { IsReady unit.new }
    ensures builds { Builds unit.old unit.new }
    ensures within { IfOk result (λ i. i < length unit.new.nodes.items) }
    ensures made { (w : World) →
        Knows w unit.old →
        CoreMade unit.new result
        (joined_spec w (operator_seen operator) place named (core_at unit.old a) (core_at unit.old b)) }
{
    let x = match value(alloc, unit, named, a) {
        Ok(node) => node,
        Err(fault) => return Err(fault),
    };
    let y = match value(alloc, unit, named, b) {
        Ok(node) => node,
        Err(fault) => return Err(fault),
    };
    between(alloc, unit, operator, place, named, x, y)
}

// An operator over what stands to its left and its right operand.
fn linked(
    alloc: Global,
    unit: &mut Unit,
    syntax: &Syntax,
    results: &Results,
    named: u32,
    operator: u32,
    left: u32,
    right: u32,
) -> Result<u32, CheckFault>
    requires ready { IsReady unit.old }
    requires left { left < length unit.old.nodes.items }
    requires done { HasRows (core_at unit.old left) }
    requires within { All (IsWithin unit.old) results.now }
    requires rows { HaveRowsMade unit.old results.now }
    ensures ready { IsReady unit.new }
    ensures builds { Builds unit.old unit.new }
    ensures within { IfOk result (λ i. i < length unit.new.nodes.items) }
    ensures rows { IfOk result (λ i. HasRows (core_at unit.new i)) }
    ensures made { (w : World) →
        Knows w unit.old →
        let sense = sense_in (senses_made unit.old results.now) in
        CoreMade unit.new result
        (linked_spec w (source_read syntax.now) sense named operator (core_at unit.old left) (sense right)) }
{
    let b = match operand_of(unit, results, named, right) {
        Ok(node) => node,
        Err(fault) => return Err(fault),
    };
    let place = place_of(syntax, operator);
    match sign_of(syntax, operator) {
        Some(sign) => joined_values(alloc, unit, operator_of(sign), place, named, left, b),
        None => Err(CheckFault::BadOperand(named)),
    }
}

// The node that is named where an operator doesn't fit.
fn named_of(at: u32, operator: u32, single: bool) -> u32
    ensures { result ≡ (if single then at else operator) }
{
    if single { at } else { operator }
}

// Operators between operands, from the left.
fn chained(
    alloc: Global,
    unit: &mut Unit,
    syntax: &Syntax,
    results: &Results,
    at: u32,
    single: bool,
    first: u32,
    children: &[u32],
) -> Result<u32, CheckFault>
    requires ready { IsReady unit.old }
    requires first { first < length unit.old.nodes.items }
    requires done { HasRows (core_at unit.old first) }
    requires within { All (IsWithin unit.old) results.now }
    requires rows { HaveRowsMade unit.old results.now }
    ensures ready { IsReady unit.new }
    ensures builds { Builds unit.old unit.new }
    ensures within { IfOk result (λ i. i < length unit.new.nodes.items) }
    ensures made { (w : World) →
        Knows w unit.old →
        let sense = sense_in (senses_made unit.old results.now) in
        CoreMade unit.new result
        (chained_spec w (source_read syntax.now) sense (between_spec w) at single (core_at unit.old first) children.now) }
{
    let mut left = first;
    let mut i = 0;
    while i + 1 < children.len() {
        let operator = children[i];
        let operand = children[i + 1];
        let named = named_of(at, operator, single);
        match linked(alloc, unit, syntax, results, named, operator, left, operand) {
            Ok(node) => left = node,
            Err(fault) => return Err(fault),
        }
        i += 2;
    }
    if i == children.len() {
        Ok(left)
    } else {
        Err(CheckFault::BadOperand(at))
    }
}

/// The row of operands with operators between them (C11 6.5.5 to 6.5.14, 6.5.17), which are judged from the left; one operand
/// is passed on.
pub fn binary_row(
    alloc: Global,
    unit: &mut Unit,
    syntax: &Syntax,
    results: &Results,
    at: u32,
    children: &[u32],
) -> Result<Made, CheckFault>
    requires ready { IsReady unit.old }
    requires within { All (IsWithin unit.old) results.now }
    requires rows { HaveRowsMade unit.old results.now }
    ensures ready { IsReady unit.new }
    ensures builds { Builds unit.old unit.new }
    ensures within { IfOk result (IsWithin unit.new) }
    ensures row { (w : World) →
        Knows w unit.old →
        let sense = sense_in (senses_made unit.old results.now) in
        Rowed unit.new result (binary_spec w (source_read syntax.now) sense (between_spec w) at children.now) }
{
    if children.is_empty() {
        return Err(CheckFault::BadOperand(at));
    }
    let rest = behind_first(children);
    if rest.is_empty() {
        return passed_on(alloc, results, children[0]);
    }
    let single = rest.len() == 2;
    match operand_of(unit, results, at, children[0]) {
        Ok(first) => sensed(chained(alloc, unit, syntax, results, at, single, first, rest)),
        Err(fault) => Err(fault),
    }
}

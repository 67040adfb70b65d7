// What stands behind an operand but a call: an index, a member, or counting up or down (C11 6.5.2).
ghost use Rattle.std.specs.Prelude.{◌≡◌, ◌≢◌, ◌<◌, length, drop, get_or, IfOk, All, true, if◌then◌else◌};
ghost use Rattle.core_tree.specs.declared.node.Op.TheVariants.{Plus, Minus};
ghost use Rattle.c_grammar.specs.Words.{sign_left_parenthesis};
ghost use Rattle.c_senses.specs.World.{World};
ghost use Rattle.c_senses.specs.Sense.{sense_in};
ghost use Rattle.c_senses.specs.Tree.{place_at, Source};
ghost use Rattle.c_senses.specs.Expressions as expressions;
ghost use Rattle.core_nodes.specs.Standing.{core_at, IsReady, Builds, Made as CoreMade, Knows};
ghost use Rattle.c_results.specs.Standing.{senses_made, IsWithin, Rowed};
ghost use Rattle.tree_reads.specs.Sources.{source_read};
ghost use Rattle.expression_rows.specs.c_rows.Postfix.{dotted_core, pointed_core, counted_core, counted_part};

use crate::c_rows::parts::{core_of, sensed, value_of};
use c_operators::members::{arrow_row, member_row};
use c_operators::objects::index_row;
use c_operators::operators::{int_number, sort_of_node};
use c_operators::updates::update_row;
use c_results::{Made, Results};
use core_nodes::CheckFault;
use core_tree::node::{Op, Unit};
use pta_base::Place;
use std::alloc::Global;
use tree_reads::{Syntax, place_of, spelling_of};

const SIGN_LEFT_BRACKET: u8 = 0;

const SIGN_DOT: u8 = 6;

const SIGN_ARROW: u8 = 7;

const SIGN_INCREMENT: u8 = 8;

const SIGN_DECREMENT: u8 = 9;

// An index over what stands to its left and within its brackets (C11 6.5.2.1).
fn indexed(
    alloc: Global,
    unit: &mut Unit,
    results: &Results,
    place: Place,
    at: u32,
    left: u32,
    right: u32,
) -> Result<u32, CheckFault>
    requires ready { IsReady unit.old }
    requires results { All (IsWithin unit.old) results.now }
    ensures ready { IsReady unit.new }
    ensures builds { Builds unit.old unit.new }
    ensures within { IfOk result (λ i. i < length unit.new.nodes.items) }
    ensures made { (w : World) →
        Knows w unit.old →
        let sense = sense_in (senses_made unit.old results.now) in
        CoreMade unit.new result (expressions.indexed_core w place at (sense left) (sense right)) }
{
    let a = match value_of(alloc, unit, results, at, left) {
        Ok(node) => node,
        Err(fault) => return Err(fault),
    };
    let b = match value_of(alloc, unit, results, at, right) {
        Ok(node) => node,
        Err(fault) => return Err(fault),
    };
    let x = sort_of_node(unit, a);
    let y = sort_of_node(unit, b);
    index_row(alloc, unit, place, at, a, b, x, y)
}

// A member of what stands to the left (C11 6.5.2.3).
fn member_of_left(
    alloc: Global,
    unit: &mut Unit,
    results: &Results,
    place: Place,
    at: u32,
    name: &[u8],
    left: u32,
) -> Result<u32, CheckFault>
    requires ready { IsReady unit.old }
    requires results { All (IsWithin unit.old) results.now }
    ensures ready { IsReady unit.new }
    ensures builds { Builds unit.old unit.new }
    ensures within { IfOk result (λ i. i < length unit.new.nodes.items) }
    ensures made { (w : World) →
        Knows w unit.old →
        CoreMade unit.new result (dotted_core w place at name.now (sense_in (senses_made unit.old results.now) left)) }
{
    match core_of(unit, results, at, left) {
        Ok(node) => member_row(alloc, unit, place, at, name, node),
        Err(fault) => Err(fault),
    }
}

// A member of what the value of what stands to the left points to (C11 6.5.2.3).
fn member_behind_left(
    alloc: Global,
    unit: &mut Unit,
    results: &Results,
    place: Place,
    at: u32,
    name: &[u8],
    left: u32,
) -> Result<u32, CheckFault>
    requires ready { IsReady unit.old }
    requires results { All (IsWithin unit.old) results.now }
    ensures ready { IsReady unit.new }
    ensures builds { Builds unit.old unit.new }
    ensures within { IfOk result (λ i. i < length unit.new.nodes.items) }
    ensures made { (w : World) →
        Knows w unit.old →
        CoreMade unit.new result (pointed_core w place at name.now (sense_in (senses_made unit.old results.now) left)) }
{
    match value_of(alloc, unit, results, at, left) {
        Ok(v) => {
            let x = sort_of_node(unit, v);
            arrow_row(alloc, unit, place, at, name, v, x)
        }
        Err(fault) => Err(fault),
    }
}

// The operator that counts down or up.
fn counting(down: bool) -> Op
    ensures { result ≡ (if down then Minus else Plus) }
{
    if down { Op::Minus } else { Op::Plus }
}

/// A place that is counted up or down by 1; `post` says that its old value is the row's (C11 6.5.2.4, 6.5.3.1).
pub fn counted(
    alloc: Global,
    unit: &mut Unit,
    place: Place,
    at: u32,
    p: u32,
    down: bool,
    post: bool,
) -> Result<u32, CheckFault>
    requires ready { IsReady unit.old }
    requires p { p < length unit.old.nodes.items }
    ensures ready { IsReady unit.new }
    ensures builds { Builds unit.old unit.new }
    ensures within { IfOk result (λ i. i < length unit.new.nodes.items) }
    ensures made { (w : World) →
        Knows w unit.old → CoreMade unit.new result (counted_core w place at (core_at unit.old p) down post) }
{
    let one = int_number(alloc, unit, place, 1)?;
    update_row(alloc, unit, counting(down), post, place, at, p, one)
}

// The same of what stands to the left.
fn counted_left(
    alloc: Global,
    unit: &mut Unit,
    results: &Results,
    place: Place,
    at: u32,
    left: u32,
    down: bool,
) -> Result<u32, CheckFault>
    requires ready { IsReady unit.old }
    requires results { All (IsWithin unit.old) results.now }
    ensures ready { IsReady unit.new }
    ensures builds { Builds unit.old unit.new }
    ensures within { IfOk result (λ i. i < length unit.new.nodes.items) }
    ensures made { (w : World) →
        Knows w unit.old →
        CoreMade unit.new result (counted_part w place at (sense_in (senses_made unit.old results.now) left) down true) }
{
    match core_of(unit, results, at, left) {
        Ok(p) => counted(alloc, unit, place, at, p, down, true),
        Err(fault) => Err(fault),
    }
}

// An index behind what stands to its left.
fn with_index(
    alloc: Global,
    unit: &mut Unit,
    results: &Results,
    place: Place,
    at: u32,
    left: u32,
    children: &[u32],
) -> Result<Made, CheckFault>
    requires ready { IsReady unit.old }
    requires results { All (IsWithin unit.old) results.now }
    requires some { 0 < length children.now }
    ensures ready { IsReady unit.new }
    ensures builds { Builds unit.old unit.new }
    ensures within { IfOk result (IsWithin unit.new) }
    ensures row { (w : World) (s : Source) →
        Knows w unit.old →
        let sense = sense_in (senses_made unit.old results.now) in
        Rowed unit.new result (expressions.indexed w s sense place at (sense left) (drop 1 children.now)) }
{
    if children.len() < 2 {
        return Err(CheckFault::BadOperand(at));
    }
    sensed(indexed(alloc, unit, results, place, at, left, children[1]))
}

// A member by its name behind what stands to its left.
fn with_dot(
    alloc: Global,
    unit: &mut Unit,
    syntax: &Syntax,
    results: &Results,
    place: Place,
    at: u32,
    left: u32,
    children: &[u32],
) -> Result<Made, CheckFault>
    requires ready { IsReady unit.old }
    requires results { All (IsWithin unit.old) results.now }
    requires some { 0 < length children.now }
    ensures ready { IsReady unit.new }
    ensures builds { Builds unit.old unit.new }
    ensures within { IfOk result (IsWithin unit.new) }
    ensures row { (w : World) →
        Knows w unit.old →
        let sense = sense_in (senses_made unit.old results.now) in
        Rowed unit.new result
        (expressions.dotted w (source_read syntax.now) sense place at (sense left) (drop 1 children.now)) }
{
    if children.len() < 2 {
        return Err(CheckFault::BadOperand(at));
    }
    let name = spelling_of(syntax, children[1]);
    sensed(member_of_left(alloc, unit, results, place, at, name, left))
}

// A member by its name behind a pointer.
fn with_arrow(
    alloc: Global,
    unit: &mut Unit,
    syntax: &Syntax,
    results: &Results,
    place: Place,
    at: u32,
    left: u32,
    children: &[u32],
) -> Result<Made, CheckFault>
    requires ready { IsReady unit.old }
    requires results { All (IsWithin unit.old) results.now }
    requires some { 0 < length children.now }
    ensures ready { IsReady unit.new }
    ensures builds { Builds unit.old unit.new }
    ensures within { IfOk result (IsWithin unit.new) }
    ensures row { (w : World) →
        Knows w unit.old →
        let sense = sense_in (senses_made unit.old results.now) in
        Rowed unit.new result
        (expressions.pointed w (source_read syntax.now) sense place at (sense left) (drop 1 children.now)) }
{
    if children.len() < 2 {
        return Err(CheckFault::BadOperand(at));
    }
    let name = spelling_of(syntax, children[1]);
    sensed(member_behind_left(alloc, unit, results, place, at, name, left))
}

/// What a punctuator that begins no call makes of what stands to its left (C11 6.5.2).
pub fn other_post(
    alloc: Global,
    unit: &mut Unit,
    syntax: &Syntax,
    results: &Results,
    at: u32,
    left: u32,
    sign: u8,
    children: &[u32],
) -> Result<Made, CheckFault>
    requires ready { IsReady unit.old }
    requires results { All (IsWithin unit.old) results.now }
    requires some { 0 < length children.now }
    requires other { sign ≢ sign_left_parenthesis }
    ensures ready { IsReady unit.new }
    ensures builds { Builds unit.old unit.new }
    ensures within { IfOk result (IsWithin unit.new) }
    ensures row { (w : World) →
        Knows w unit.old →
        let sense = sense_in (senses_made unit.old results.now) in
        let s = source_read syntax.now in
        let place = place_at s (get_or children.now 0 0) in
        Rowed unit.new result (expressions.post_of w s sense place at (sense left) (drop 1 children.now) sign) }
{
    let place = place_of(syntax, children[0]);
    if sign == SIGN_LEFT_BRACKET {
        return with_index(alloc, unit, results, place, at, left, children);
    }
    if sign == SIGN_DOT {
        return with_dot(alloc, unit, syntax, results, place, at, left, children);
    }
    if sign == SIGN_ARROW {
        return with_arrow(alloc, unit, syntax, results, place, at, left, children);
    }
    if sign == SIGN_INCREMENT {
        return sensed(counted_left(alloc, unit, results, place, at, left, false));
    }
    if sign == SIGN_DECREMENT {
        return sensed(counted_left(alloc, unit, results, place, at, left, true));
    }
    Err(CheckFault::BadOperand(at))
}

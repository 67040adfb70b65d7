// Primary expressions (C11 6.5.1).
ghost use Rattle.std.specs.Prelude.{◌≡◌, ◌<◌, length, drop, get_or, IfOk, All};
ghost use Rattle.std.specs.Option.{option_copied};
ghost use Rattle.c_lexer.specs.declared.TokenKind.TheVariants.{Identifier};
ghost use Rattle.c_senses.specs.World.{World};
ghost use Rattle.c_senses.specs.Tree.{kind_at};
ghost use Rattle.c_senses.specs.Sense.{sense_in};
ghost use Rattle.c_senses.specs.Expressions.{passed, named_primary};
ghost use Rattle.core_nodes.specs.Standing.{IsReady, Builds, Knows};
ghost use Rattle.expression_rows.specs.Fitting.{IdentifierFits};
ghost use Rattle.c_results.specs.Standing.{senses_made, IsWithin, Rowed};
ghost use Rattle.tree_reads.specs.Sources.{source_read};
ghost use Rattle.expression_rows.specs.c_rows.Named.{IsNamedWithin};
ghost use Rattle.expression_rows.specs.c_rows.Built as spec;

use crate::around::Around;
use crate::c_rows::lists::list_row;
use crate::c_rows::literals::{character, integer, string};
use crate::c_rows::names::name_row;
use crate::c_rows::parts::{behind_first, passed_on, sensed};
use c_lexer::TokenKind;
use c_results::{Made, Results};
use core_nodes::CheckFault;
use core_tree::node::Unit;
use std::alloc::Global;
use tree_reads::{Syntax, kind_of, place_of};

// What stands in parentheses.
fn enclosed(
    alloc: Global,
    unit: &Unit,
    results: &Results,
    at: u32,
    children: &[u32],
) -> Result<Made, CheckFault>
    requires results { All (IsWithin unit.now) results.now }
    requires some { 0 < length children.now }
    ensures within { IfOk result (IsWithin unit.now) }
    ensures row { Rowed unit.now result (passed (sense_in (senses_made unit.now results.now)) at (drop 1 children.now)) }
{
    if children.len() < 2 {
        return Err(CheckFault::BadOperand(at));
    }
    passed_on(alloc, results, children[1])
}

// A name alone, or an operation on variadic lists.
fn named(
    alloc: Global,
    unit: &mut Unit,
    syntax: &Syntax,
    results: &Results,
    at: u32,
    children: &[u32],
    around: &Around,
) -> Result<Made, CheckFault>
    requires ready { IsReady unit.old }
    requires results { All (IsWithin unit.old) results.now }
    requires named { IsNamedWithin unit.old around.now.first }
    requires some { 0 < length children.now }
    ensures ready { IsReady unit.new }
    ensures builds { Builds unit.old unit.new }
    ensures within { IfOk result (IsWithin unit.new) }
    ensures row { (w : World) →
        let s = source_read syntax.now in
        let sense = sense_in (senses_made unit.old results.now) in
        let first = get_or children.now 0 0 in
        Knows w unit.old →
        IdentifierFits w unit.old s sense first (drop 1 children.now) around.now →
        Rowed unit.new result (named_primary w s sense at first (drop 1 children.now)) }
{
    let first = children[0];
    if children.len() < 2 {
        let place = place_of(syntax, first);
        return sensed(name_row(alloc, unit, place, at, around.first, around.own_name));
    }
    let rest = behind_first(children);
    list_row(
        alloc,
        unit,
        syntax,
        results,
        at,
        first,
        rest,
        around.further,
    )
}

/// The row of a primary expression (C11 6.5.1): a name, by what its leaf means and the own name of the function around it; an operation
/// on variadic lists (7.16.1), by what its second part names; a constant; strings side by side; or what stands in parentheses. What a
/// name means is asked of an identifier alone. An integer constant of 2^64 or more, and a string with an escape of 256 or more, which no
/// token of a text is, aren't built.
pub fn primary_row(
    alloc: Global,
    unit: &mut Unit,
    syntax: &Syntax,
    results: &Results,
    at: u32,
    children: &[u32],
    around: &Around,
) -> Result<Made, CheckFault>
    requires ready { IsReady unit.old }
    requires results { All (IsWithin unit.old) results.now }
    requires named { IsNamedWithin unit.old around.now.first }
    ensures ready { IsReady unit.new }
    ensures builds { Builds unit.old unit.new }
    ensures within { IfOk result (IsWithin unit.new) }
    ensures row { (w : World) →
        let s = source_read syntax.now in
        let sense = sense_in (senses_made unit.old results.now) in
        let first = get_or children.now 0 0 in
        Knows w unit.old →
        (0 < length children.now →
        kind_at s first ≡ Identifier →
        IdentifierFits w unit.old s sense first (drop 1 children.now) around.now) →
        Rowed unit.new result (spec.built_primary w s sense at children.now) }
{
    if children.is_empty() {
        return Err(CheckFault::BadOperand(at));
    }
    let first = children[0];
    match kind_of(syntax, first) {
        TokenKind::Identifier => named(alloc, unit, syntax, results, at, children, around),
        TokenKind::Punctuator(_) => enclosed(alloc, unit, results, at, children),
        TokenKind::Integer => sensed(integer(alloc, unit, syntax, at, first)),
        TokenKind::Character => sensed(character(alloc, unit, syntax, first)),
        TokenKind::Text => sensed(string(alloc, unit, syntax, at, first, children)),
        TokenKind::Keyword(_) | TokenKind::Floating | TokenKind::End => Err(CheckFault::BadOperand(
            at,
        )),
    }
}

// The row of a node by its production.
#![tactic(auto)]

ghost use Rattle.std.specs.Prelude.{◌≡◌, ℕ, List, IfOk, All};
ghost use Rattle.c_senses.specs.Tree.{Source, production_at, children_at};
ghost use Rattle.c_senses.specs.World.{World};
ghost use Rattle.c_senses.specs.Sense.{Sense, sense_in};
ghost use Rattle.c_senses.specs.Expressions as expressions;
ghost use Rattle.core_nodes.specs.Standing.{IsReady, Builds, Knows};
ghost use Rattle.c_results.specs.Standing.{sense_made, senses_made, IsWithin, Rowed};
ghost use Rattle.expression_rows.specs.c_rows.Named.{IsNamedWithin};
ghost use Rattle.tree_reads.specs.Sources.{source_in, source_read};
ghost use Rattle.expression_rows.specs.whole_rows.Constants.{SenseHasRows, HaveRowsMade};
ghost use Rattle.expression_rows.specs.Fitting.{FitsAround};
ghost use Rattle.expression_rows.specs.Readable.{IsReadable};
ghost use Rattle.expression_rows.specs.Built.{built_row};

use crate::around::Around;
use crate::c_rows::primary_row;
use crate::whole_rows::{
    assignment_row, binary_row, cast_row, conditional_row, post_row, unary_row,
};
use c_grammar::productions::{
    ASSIGNMENT, CAST, CONDITIONAL, EXPRESSION, LOGICAL_OR, MULTIPLICATIVE, POST, PRIMARY, UNARY,
};
use c_results::{Made, Results};
use core_nodes::CheckFault;
use core_tree::node::Unit;
use std::alloc::Global;
use tree_reads::{Syntax, children_of, production_of};

// Whether a production has operators between its operands.
fn is_binary(production: u32) -> bool
    ensures { (w : World) (s : Source) (sense : ℕ → Sense) → result ≡ expressions.is_binary w s sense production }
{
    production == EXPRESSION || (LOGICAL_OR <= production && production <= MULTIPLICATIVE)
}

// A node by its production.
fn by_production(
    alloc: Global,
    unit: &mut Unit,
    syntax: &Syntax,
    results: &Results,
    around: &Around,
    production: u32,
    at: u32,
    children: &[u32],
) -> Result<Made, CheckFault>
    requires ready { IsReady unit.old }
    requires results { All (IsWithin unit.old) results.now }
    requires rows { HaveRowsMade unit.old results.now }
    requires around { IsNamedWithin unit.old around.now.first }
    ensures ready { IsReady unit.new }
    ensures builds { Builds unit.old unit.new }
    ensures within { IfOk result (IsWithin unit.new) }
    ensures rows { IfOk result (λ m. SenseHasRows (sense_made unit.new m)) }
    ensures built { (w : World) →
        let s = source_read syntax.now in
        Knows w unit.old →
        let sense = sense_in (senses_made unit.old results.now) in
        FitsAround w unit.old s sense production children.now around.now →
        Rowed unit.new result (built_row w s sense production at children.now) }
{
    if production == PRIMARY {
        return primary_row(alloc, unit, syntax, results, at, children, around);
    }
    if production == POST {
        return post_row(alloc, unit, syntax, results, at, children, around.may_call);
    }
    if production == UNARY {
        return unary_row(alloc, unit, syntax, results, at, children);
    }
    if production == CAST {
        return cast_row(alloc, unit, syntax, results, at, children);
    }
    if production == CONDITIONAL {
        return conditional_row(alloc, unit, syntax, results, at, children);
    }
    if production == ASSIGNMENT {
        return assignment_row(alloc, unit, syntax, results, at, children);
    }
    if is_binary(production) {
        return binary_row(alloc, unit, syntax, results, at, children);
    }
    Err(CheckFault::BadOperand(at))
}

/// The row of a node of an expression, by its production (C11 6.5.1 to 6.5.17). `around` holds what was looked up for the node.
/// `BadOperand` and `Unsupported` hold the kind and the node that the row refuses with; a node of another production is `BadOperand`.
/// An integer constant of 2^64 or more and strings with an escape of 256 or more, of which no reading of a text takes any, are
/// `Unsupported` with `NotBuilt`. Where the constants under the nodes before stand in their rows, so do those of what is made.
pub fn row(
    alloc: Global,
    unit: &mut Unit,
    syntax: &Syntax,
    results: &Results,
    around: &Around,
    at: u32,
) -> Result<Made, CheckFault>
    requires ready { IsReady unit.old }
    requires results { All (IsWithin unit.old) results.now }
    requires rows { HaveRowsMade unit.old results.now }
    requires around { IsNamedWithin unit.old around.now.first }
    ensures ready { IsReady unit.new }
    ensures builds { Builds unit.old unit.new }
    ensures within { IfOk result (IsWithin unit.new) }
    ensures rows { IfOk result (λ m. SenseHasRows (sense_made unit.new m)) }
    ensures built { (w : World) (uses : List (ℕ × ℕ)) →
        let s = source_in syntax.now uses in
        Knows w unit.old →
        let sense = sense_in (senses_made unit.old results.now) in
        FitsAround w unit.old s sense (production_at s at) (children_at s at) around.now →
        Rowed unit.new result (built_row w s sense (production_at s at) at (children_at s at)) }
    ensures row { (w : World) (uses : List (ℕ × ℕ)) →
        let s = source_in syntax.now uses in
        Knows w unit.old →
        let sense = sense_in (senses_made unit.old results.now) in
        FitsAround w unit.old s sense (production_at s at) (children_at s at) around.now →
        IsReadable s at →
        Rowed unit.new result (expressions.expression_row w s sense (production_at s at) at (children_at s at)) }
{
    let production = production_of(syntax, at);
    let children = children_of(syntax, at);
    by_production(
        alloc, unit, syntax, results, around, production, at, children,
    )
}

// Cases (C11 6.8.1, 6.8.4.2).
ghost use Rattle.std.specs.Prelude.{◌≡◌, ◌<◌, ℕ, List, length, All, IfOk, IsOkUnless};
ghost use Rattle.core_tree.specs.declared.node.NodeKind.TheVariants.{Case};
ghost use Rattle.c_types.specs.Table.{type_of};
ghost use Rattle.c_consts.specs.Wrapped as wrapped;
ghost use Rattle.c_senses.specs.Given.{Fits};
ghost use Rattle.c_senses.specs.Tree.{children_at, place_at};
ghost use Rattle.c_senses.specs.World.{World};
ghost use Rattle.c_senses.specs.Sense.{sense_in};
ghost use Rattle.c_senses.specs.Statements as spec;
ghost use Rattle.core_nodes.specs.Standing.{core_at, IsReady, Builds, Made as CoreMade, Knows};
ghost use Rattle.c_results.specs.Standing.{senses_made, IsWithin};
ghost use Rattle.c_conversions.specs.constant_values.Constants.{HasConstants};
ghost use Rattle.tree_reads.specs.Sources.{source_in};
ghost use Rattle.c_statements.specs.Labels.{number_for, AreCases};

use crate::choices::CaseMap;
use crate::parts::{body, switched, void_type};
use c_consts::converted;
use c_conversions::constant_values::constant_in;
use c_grammar::productions::CONDITIONAL;
use c_results::Results;
use c_types::table::TypeTable;
use c_types::term::{Term, TypeId};
use core_nodes::CheckFault;
use core_nodes::reads::type_of_node;
use core_nodes::trees::push_over;
use core_tree::held::Number;
use core_tree::node::{NodeKind, Unit};
use std::alloc::Global;
use tree_reads::{Above, Syntax, child_of, children_of, nearest_above, place_of};

// A number as one of a type (C11 6.3.1.3).
fn number_as(types: &TypeTable, ty: TypeId, number: i128) -> i128
    requires { ty.0 < length types.now.terms }
    ensures { result ≡ wrapped.converted (type_of types.now ty.0) number }
{
    let term = types.term(ty);
    match term {
        Term::Bool => converted(number, term),
        Term::Integer { .. } => converted(number, term),
        _ => number,
    }
}

// The number of a case as one of the type by which its switch chooses (C11 6.8.4.2p5); None where that is no integer's.
fn number_for(
    alloc: Global,
    unit: &mut Unit,
    syntax: &Syntax,
    results: &Results,
    switch: u32,
    number: i128,
) -> Result<Option<i128>, CheckFault>
    requires ready { IsReady unit.old }
    requires results { All (IsWithin unit.old) results.now }
    ensures ready { IsReady unit.new }
    ensures builds { Builds unit.old unit.new }
    ensures number { (w : World) (uses : List (ℕ × ℕ)) →
        Knows w unit.old →
        let s = source_in syntax.now uses in
        let sense = sense_in (senses_made unit.old results.now) in
        let chosen = spec.switched w s sense switch (spec.expression_in w s sense (children_at s switch)) in
        IfOk result (λ o. o ≡ number_for chosen number) }
    ensures memory { IsOkUnless result CheckFault.OutOfMemory }
{
    let children = children_of(syntax, switch);
    match switched(alloc, unit, syntax, results, switch, children) {
        Ok(node) => {
            let ty = type_of_node(unit, node);
            Ok(Some(number_as(&unit.types, ty, number)))
        }
        Err(CheckFault::OutOfMemory) => Err(CheckFault::OutOfMemory),
        Err(CheckFault::BadOperand(_)) => Ok(None),
        Err(CheckFault::Unsupported(_, _)) => Ok(None),
    }
}

// A case of that number over a statement.
fn case_over(
    alloc: Global,
    unit: &mut Unit,
    syntax: &Syntax,
    at: u32,
    number: i128,
    inner: u32,
) -> Result<u32, CheckFault>
    requires ready { IsReady unit.old }
    requires inner { inner < length unit.old.nodes.items }
    ensures ready { IsReady unit.new }
    ensures builds { Builds unit.old unit.new }
    ensures within { IfOk result (λ i. i < length unit.new.nodes.items) }
    ensures made { (uses : List (ℕ × ℕ)) →
        CoreMade unit.new result
        (Fits (spec.statement (Case number) (place_at (source_in syntax.now uses) at) (spec.one (core_at unit.old inner)))) }
{
    let ty = match void_type(unit) {
        Ok(ty) => ty,
        Err(_) => return Err(CheckFault::OutOfMemory),
    };
    push_over(
        alloc,
        unit,
        NodeKind::Case(Number::of(number)),
        place_of(syntax, at),
        ty,
        inner,
    )
}

// A case in its switch, over a statement: it has the type of the switch's value and is the first one of its number.
fn case_in(
    alloc: Global,
    unit: &mut Unit,
    syntax: &Syntax,
    results: &Results,
    cases: &CaseMap,
    at: u32,
    choice: (u32, i128),
    inner: u32,
) -> Result<u32, CheckFault>
    requires ready { IsReady unit.old }
    requires results { All (IsWithin unit.old) results.now }
    requires inner { inner < length unit.old.nodes.items }
    ensures ready { IsReady unit.new }
    ensures builds { Builds unit.old unit.new }
    ensures within { IfOk result (λ i. i < length unit.new.nodes.items) }
    ensures made { (w : World) (uses : List (ℕ × ℕ)) →
        Knows w unit.old →
        let s = source_in syntax.now uses in
        let sense = sense_in (senses_made unit.old results.now) in
        AreCases w s sense at cases.now →
        CoreMade unit.new result (spec.case_in w s sense at choice.0 (core_at unit.old inner) choice.1) }
{
    let (switch, number) = choice;
    match number_for(alloc, unit, syntax, results, switch, number) {
        Ok(Some(converted)) => {
            if cases.get(switch, converted).is_some() {
                return Err(CheckFault::BadOperand(at));
            }
            case_over(alloc, unit, syntax, at, converted, inner)
        }
        Ok(None) => case_over(alloc, unit, syntax, at, number, inner),
        Err(_) => Err(CheckFault::OutOfMemory),
    }
}

/// The row of a case (C11 6.8.1, 6.8.4.2), over its statement: its number is an integer constant, converted to the promoted type
/// of its switch's value. It is refused as that constant is; it is `operand` at `at` where no switch is around it, where it has
/// no statement, and where its switch has another case of the number before it. `cases` has the cases before it.
pub fn case_row(
    alloc: Global,
    unit: &mut Unit,
    syntax: &Syntax,
    results: &Results,
    cases: &CaseMap,
    at: u32,
    children: &[u32],
) -> Result<u32, CheckFault>
    requires ready { IsReady unit.old }
    requires results { All (IsWithin unit.old) results.now }
    requires rows { All (HasConstants unit.old) results.now }
    requires at { at < length syntax.now.tree.now.nodes.items }
    ensures ready { IsReady unit.new }
    ensures builds { Builds unit.old unit.new }
    ensures within { IfOk result (λ i. i < length unit.new.nodes.items) }
    ensures made { (w : World) (uses : List (ℕ × ℕ)) →
        Knows w unit.old →
        let s = source_in syntax.now uses in
        let sense = sense_in (senses_made unit.old results.now) in
        AreCases w s sense at cases.now → CoreMade unit.new result (spec.case_row w s sense at children.now) }
{
    let Some(part) = child_of(syntax, CONDITIONAL, at) else {
        return Err(CheckFault::BadOperand(at));
    };
    let number = match constant_in(unit, syntax, results, at, part) {
        Ok(number) => number,
        Err(fault) => return Err(fault),
    };
    let Some(switch) = nearest_above(syntax, Above::Switch, at) else {
        return Err(CheckFault::BadOperand(at));
    };
    let inner = match body(unit, syntax, results, at, children) {
        Ok(node) => node,
        Err(fault) => return Err(fault),
    };
    case_in(
        alloc,
        unit,
        syntax,
        results,
        cases,
        at,
        (switch, number),
        inner,
    )
}

// The row of a for (C11 6.8.5.3).
ghost use Rattle.std.specs.Prelude.{◌≡◌, ◌<◌, ◌++◌, [], ◌∷◌, ℕ, List, Some, length, All, IfOk, IfSome, OnOk, IsOkUnless};
ghost use Rattle.core_tree.specs.declared.node.NodeKind.TheVariants.{For};
ghost use Rattle.c_senses.specs.World.{World};
ghost use Rattle.c_senses.specs.Sense.{Sense, sense_in};
ghost use Rattle.c_senses.specs.Statements as spec;
ghost use Rattle.core_nodes.specs.Standing.{IsReady, Builds, Made as CoreMade, Knows};
ghost use Rattle.c_results.specs.Standing.{senses_made, IsWithin};
ghost use Rattle.tree_reads.specs.Sources.{source_read, source_in};
ghost use Rattle.c_statements.specs.Others.{OtherMade};
ghost use Rattle.c_statements.specs.Fors.{parts_seen, run_made, some_nodes, RunMade};
ghost use Rattle.c_senses.specs.Tree.{Source};

use crate::parts::{body, value_of, void_type};
use crate::places::own_place;
use crate::simple::expression_row;
use c_grammar::productions::{DECLARATION, EXPRESSION};
use c_results::{Made, Results};
use core_nodes::CheckFault;
use core_nodes::reads::type_of_node;
use core_nodes::sorts::{is_scalar, operand_of};
use core_nodes::trees::push_node;
use core_tree::held::{Children, HeldList};
use core_tree::node::{NodeKind, Unit};
use pta_base::Listing;
use std::alloc::Global;
use tree_reads::{Syntax, has_sign, is_a, place_of};

const SIGN_SEMICOLON: u8 = 32;

/// The parts of a for (C11 6.8.5.3): its declaration or first expression, its condition, and what is done after a turn.
#[derive(Clone, Copy, Debug, PartialEq, Eq)]
pub struct ForParts {
    pub first: Option<u32>,
    pub condition: Option<u32>,
    pub after: Option<u32>,
}

// The expression that a list begins with, if it does.
fn expression_before(syntax: &Syntax, list: &[u32]) -> Option<u32>
    ensures { (w : World) (sense : ℕ → Sense) →
        result ≡ spec.expression_before w (source_read syntax.now) sense list.now }
{
    match list.first() {
        Some(node) => {
            if is_a(syntax, EXPRESSION, *node) {
                Some(*node)
            } else {
                None
            }
        }
        None => None,
    }
}

// What stands behind the first semicolon of a list.
fn behind_semicolon<'a>(syntax: &Syntax, list: &'a [u32]) -> &'a [u32]
    ensures { (w : World) (sense : ℕ → Sense) →
        result.now ≡ spec.behind_semicolon w (source_read syntax.now) sense list.now }
{
    for i in 0..list.len() {
        if has_sign(syntax, SIGN_SEMICOLON, list[i]) {
            return &list[i + 1..];
        }
    }
    &list[list.len()..]
}

/// The parts of a for by what stands behind its parenthesis.
pub fn for_parts(syntax: &Syntax, list: &[u32]) -> ForParts
    ensures { (w : World) (sense : ℕ → Sense) →
        parts_seen result ≡ spec.for_parts w (source_read syntax.now) sense list.now }
{
    if list.is_empty() {
        return ForParts {
            first: None,
            condition: None,
            after: None,
        };
    }
    if is_a(syntax, DECLARATION, list[0]) {
        let rest = &list[1..];
        return ForParts {
            first: Some(list[0]),
            condition: expression_before(syntax, rest),
            after: expression_before(syntax, behind_semicolon(syntax, rest)),
        };
    }
    let rest = behind_semicolon(syntax, list);
    ForParts {
        first: expression_before(syntax, list),
        condition: expression_before(syntax, rest),
        after: expression_before(syntax, behind_semicolon(syntax, rest)),
    }
}

// What a declaration runs: nothing, where what has been made for it is no such list.
fn run_of(alloc: Global, results: &Results, part: u32) -> Result<Listing<u32>, CheckFault>
    ensures run { IfOk result (λ list. list ≡ run_made results.now part) }
    ensures memory { IsOkUnless result CheckFault.OutOfMemory }
{
    match results.get(part as usize) {
        Some(Made::Run(nodes)) => {
            let list = Vec::from_slice(alloc, nodes.as_slice())?;
            Ok(Listing::of(list))
        }
        _ => Ok(Listing::new(alloc)),
    }
}

// The list of one node.
fn alone(alloc: Global, node: u32) -> Result<Listing<u32>, CheckFault>
    ensures one { IfOk result (λ list. list ≡ node ∷ []) }
    ensures memory { IsOkUnless result CheckFault.OutOfMemory }
{
    let mut list = Listing::new(alloc);
    list.push(node)?;
    Ok(list)
}

// What a for runs first: what its declaration runs, or its first expression as a statement.
fn for_first(
    alloc: Global,
    unit: &mut Unit,
    syntax: &Syntax,
    results: &Results,
    at: u32,
    first: Option<u32>,
) -> Result<Listing<u32>, CheckFault>
    requires ready { IsReady unit.old }
    requires results { All (IsWithin unit.old) results.now }
    ensures ready { IsReady unit.new }
    ensures builds { Builds unit.old unit.new }
    ensures within { IfOk result (λ list. All (λ i. i < length unit.new.nodes.items) list) }
    ensures made { (w : World) →
        Knows w unit.old →
        let sense = sense_in (senses_made unit.old results.now) in
        RunMade unit.new result (spec.for_first w (source_read syntax.now) sense at first) }
{
    let Some(part) = first else {
        return Ok(Listing::new(alloc));
    };
    if is_a(syntax, DECLARATION, part) {
        return run_of(alloc, results, part);
    }
    let place = own_place(syntax, part);
    match expression_row(alloc, unit, results, at, part, place) {
        Ok(node) => alone(alloc, node),
        Err(fault) => Err(fault),
    }
}

// The value of a condition, which is scalar (C11 6.8.5p2).
fn tested(
    alloc: Global,
    unit: &mut Unit,
    results: &Results,
    at: u32,
    part: u32,
) -> Result<u32, CheckFault>
    requires ready { IsReady unit.old }
    requires results { All (IsWithin unit.old) results.now }
    ensures ready { IsReady unit.new }
    ensures builds { Builds unit.old unit.new }
    ensures within { IfOk result (λ i. i < length unit.new.nodes.items) }
    ensures made { (w : World) (s : Source) →
        Knows w unit.old →
        let sense = sense_in (senses_made unit.old results.now) in
        CoreMade unit.new result (spec.condition_of w s sense at (Some part)) }
{
    let node = match value_of(alloc, unit, results, at, part) {
        Ok(node) => node,
        Err(fault) => return Err(fault),
    };
    let sort = operand_of(&unit.types, type_of_node(unit, node));
    if is_scalar(&unit.types, sort) {
        Ok(node)
    } else {
        Err(CheckFault::BadOperand(at))
    }
}

// What a for tests before each turn, if it does.
fn for_condition(
    alloc: Global,
    unit: &mut Unit,
    results: &Results,
    at: u32,
    part: Option<u32>,
) -> Result<Option<u32>, CheckFault>
    requires ready { IsReady unit.old }
    requires results { All (IsWithin unit.old) results.now }
    ensures ready { IsReady unit.new }
    ensures builds { Builds unit.old unit.new }
    ensures within { IfOk result (λ o. IfSome o (λ i. i < length unit.new.nodes.items)) }
    ensures made { (w : World) (s : Source) →
        Knows w unit.old →
        let sense = sense_in (senses_made unit.old results.now) in
        OtherMade unit.new result (spec.for_condition w s sense at part) }
{
    let Some(part) = part else {
        return Ok(None);
    };
    match tested(alloc, unit, results, at, part) {
        Ok(node) => Ok(Some(node)),
        Err(fault) => Err(fault),
    }
}

// What a for does after each turn, if it does something.
fn for_after(
    alloc: Global,
    unit: &mut Unit,
    results: &Results,
    at: u32,
    part: Option<u32>,
) -> Result<Option<u32>, CheckFault>
    requires ready { IsReady unit.old }
    requires results { All (IsWithin unit.old) results.now }
    ensures ready { IsReady unit.new }
    ensures builds { Builds unit.old unit.new }
    ensures within { IfOk result (λ o. IfSome o (λ i. i < length unit.new.nodes.items)) }
    ensures made { (w : World) (s : Source) →
        Knows w unit.old →
        let sense = sense_in (senses_made unit.old results.now) in
        OtherMade unit.new result (spec.for_after w s sense at part) }
{
    let Some(part) = part else {
        return Ok(None);
    };
    match value_of(alloc, unit, results, at, part) {
        Ok(node) => Ok(Some(node)),
        Err(fault) => Err(fault),
    }
}

// Adds a node, if there is one.
fn add_some(list: &mut Listing<u32>, node: Option<u32>) -> Result<(), CheckFault>
    ensures added { OnOk result (list.new ≡ list.old ++ some_nodes node) }
    ensures memory { IsOkUnless result CheckFault.OutOfMemory }
{
    if let Some(node) = node {
        list.push(node)?;
    }
    Ok(())
}

// A list with a node, if there is one, another one, if there is one, and a last one behind it.
fn with_parts(
    first: Listing<u32>,
    condition: Option<u32>,
    after: Option<u32>,
    body: u32,
) -> Result<Listing<u32>, CheckFault>
    ensures listed { IfOk result (λ list.
        list ≡ first ++ (some_nodes condition ++ (some_nodes after ++ body ∷ []))) }
    ensures memory { IsOkUnless result CheckFault.OutOfMemory }
{
    let mut list = first;
    add_some(&mut list, condition)?;
    add_some(&mut list, after)?;
    list.push(body)?;
    Ok(list)
}

/// The row of a for (C11 6.8.5.3): what its declaration or its first expression runs, its condition, what is done after each
/// turn, and its body, in this order; it lists `objects`, which are to be the automatic objects that its declaration declares.
/// `list` is what stands behind its parenthesis. It is `operand` at `at` where the condition is no scalar or an expression has
/// no value, and where it has no body.
pub fn for_row(
    alloc: Global,
    unit: &mut Unit,
    syntax: &Syntax,
    results: &Results,
    objects: Vec<u32>,
    at: u32,
    list: &[u32],
) -> Result<u32, CheckFault>
    requires ready { IsReady unit.old }
    requires results { All (IsWithin unit.old) results.now }
    ensures ready { IsReady unit.new }
    ensures builds { Builds unit.old unit.new }
    ensures within { IfOk result (λ i. i < length unit.new.nodes.items) }
    ensures made { (w : World) (uses : List (ℕ × ℕ)) →
        Knows w unit.old →
        let s = source_in syntax.now uses in
        let sense = sense_in (senses_made unit.old results.now) in
        let parts = spec.for_parts w s sense list.now in
        objects.items ≡ spec.for_objects w s sense parts.first →
        CoreMade unit.new result (spec.for_of w s sense at parts list.now) }
{
    let parts = for_parts(syntax, list);
    let first = match for_first(alloc, unit, syntax, results, at, parts.first) {
        Ok(first) => first,
        Err(fault) => return Err(fault),
    };
    let condition = match for_condition(alloc, unit, results, at, parts.condition) {
        Ok(condition) => condition,
        Err(fault) => return Err(fault),
    };
    let after = match for_after(alloc, unit, results, at, parts.after) {
        Ok(after) => after,
        Err(fault) => return Err(fault),
    };
    let inner = match body(unit, syntax, results, at, list) {
        Ok(inner) => inner,
        Err(fault) => return Err(fault),
    };
    let nodes = with_parts(first, condition, after, inner)?;
    let ty = match void_type(unit) {
        Ok(ty) => ty,
        Err(_) => return Err(CheckFault::OutOfMemory),
    };
    let nodes = Children::of(alloc, nodes.into_vec())?;
    let kind = NodeKind::For {
        entities: HeldList::of(alloc, objects)?,
        condition: condition.is_some(),
        after: after.is_some(),
    };
    push_node(unit, kind, place_of(syntax, at), ty, nodes)
}

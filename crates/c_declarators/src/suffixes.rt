// Rows of suffixes: arrays and lists of parameters.
ghost use Rattle.std.specs.Prelude.{◌≡◌, ◌<◌, ◌^◌, ◌<ℤ◌, pos, ℕ, List, ◌&&◌, ◌||◌, not, ◌≤◌, drop, length, slice_get, IfOk, All, true};
ghost use Rattle.core_tree.specs.declared.node.Unit.{Unit as UnitSpec};
ghost use Rattle.c_types.specs.Table.{type_of};
ghost use Rattle.c_consts.specs.Core.{ctype_of};
ghost use Rattle.core_nodes.specs.passed.c_senses.Tree.{Source};
ghost use Rattle.core_nodes.specs.passed.c_senses.Conversions.{operand_of};
ghost use Rattle.core_nodes.specs.passed.c_senses.Constants.{is_whole};
ghost use Rattle.core_nodes.specs.passed.c_senses.World.{World};
ghost use Rattle.core_nodes.specs.passed.c_senses.Sense.{Sense, sense_in};
ghost use Rattle.core_nodes.specs.passed.c_senses.Declarators as spec;
ghost use Rattle.c_conversions.specs.constant_values.PassedOn.{HasRows};
ghost use Rattle.c_conversions.specs.constant_values.Constants.{HasConstants};
ghost use Rattle.core_nodes.specs.Standing.{core_at, IsReady};
ghost use Rattle.c_results.specs.Standing.{senses_made, IsWithin, Rowed};
ghost use Rattle.tree_reads.specs.Sources.{source_read, source_in};
ghost use Rattle.c_declarators.specs.Suffixes.{LengthMade, open_length, length_by};

use crate::lists::list_of;
use crate::parameters::is_parameter_array;
use c_consts::{ConstFault, constant};
use c_conversions::constant_values::leaf_of_node;
use c_grammar::productions::{ASSIGNMENT, QUALIFIER};
use c_results::{BoxedDerivation, Derivation, Made, Results, node_at};
use c_types::table::TypeTable;
use c_types::term::{Term, TypeId};
use core_nodes::CheckFault;
use core_nodes::reads::{is_place, is_value, type_of_node};
use core_tree::node::Unit;
use pta_base::Kind;
use std::alloc::Global;
use tree_reads::{Syntax, Test, any_where, child_of, has_sign};

const SIGN_LEFT_BRACKET: u8 = 0;

const SIGN_STAR: u8 = 11;

const SIGN_ELLIPSIS: u8 = 33;

const WORD_STATIC: u8 = 25;

// A length: it is above 0.
fn positive(at: u32, value: i128) -> Result<Option<u64>, CheckFault>
    requires { value <ℤ pos (2 ^ 64) }
    ensures { (w : World) (s : Source) (sense : ℕ → Sense) → LengthMade result (spec.positive w s sense at value) }
{
    if value <= 0 {
        return Err(CheckFault::BadOperand(at));
    }
    Ok(Some(value as u64))
}

// The length of what is no constant.
fn unless_constant(syntax: &Syntax, results: &Results, at: u32) -> Result<Option<u64>, CheckFault>
    requires at { at < length syntax.now.tree.now.nodes.items }
    ensures { (u : UnitSpec) (w : World) →
        LengthMade result
        (open_length (spec.is_parameter_array w (source_read syntax.now) (sense_in (senses_made u results.now)) at) at) }
{
    if is_parameter_array(syntax, results, at) {
        Ok(None)
    } else {
        Err(CheckFault::Unsupported(Kind::Vla, at))
    }
}

// Whether a type is an integer.
fn is_whole(types: &TypeTable, ty: TypeId) -> bool
    requires { ty.0 < length types.now.terms }
    ensures { result ≡ is_whole (operand_of (type_of types.now ty.0)) }
{
    match types.term(ty) {
        Term::Bool | Term::Integer { .. } => true,
        _ => false,
    }
}

// The length that an integer value gives.
fn value_length(
    unit: &Unit,
    syntax: &Syntax,
    results: &Results,
    at: u32,
    node: u32,
) -> Result<Option<u64>, CheckFault>
    requires at { at < length syntax.now.tree.now.nodes.items }
    requires ready { IsReady unit.now }
    requires node { node < length unit.now.nodes.items }
    requires rows { HasRows (core_at unit.now node) }
    ensures { (w : World) →
        is_whole (operand_of (ctype_of (core_at unit.now node))) ≡ true →
        LengthMade result
        (spec.length_of w (source_read syntax.now) (sense_in (senses_made unit.now results.now)) at
        (core_at unit.now node)) }
{
    let nodes = unit.nodes.as_slice();
    match constant(&unit.types, nodes, node) {
        Ok(value) => positive(at, value),
        Err(ConstFault::NotConstant(_)) => unless_constant(syntax, results, at),
        Err(ConstFault::Range(wrong)) => Err(CheckFault::Unsupported(
            Kind::ConstantRange,
            leaf_of_node(syntax, nodes, at, wrong),
        )),
        Err(ConstFault::DivideByZero(wrong)) => Err(CheckFault::Unsupported(
            Kind::DivideByZero,
            leaf_of_node(syntax, nodes, at, wrong),
        )),
    }
}

// The length that an expression gives (C11 6.7.6.2p1, p4).
fn node_length(
    unit: &Unit,
    syntax: &Syntax,
    results: &Results,
    at: u32,
    node: u32,
) -> Result<Option<u64>, CheckFault>
    requires at { at < length syntax.now.tree.now.nodes.items }
    requires ready { IsReady unit.now }
    requires node { node < length unit.now.nodes.items }
    requires rows { HasRows (core_at unit.now node) }
    ensures { (w : World) →
        LengthMade result
        (length_by w (source_read syntax.now) (sense_in (senses_made unit.now results.now)) at (core_at unit.now node)) }
{
    if !is_whole(&unit.types, type_of_node(unit, node)) {
        return Err(CheckFault::BadOperand(at));
    }
    if is_value(unit, node) {
        return value_length(unit, syntax, results, at, node);
    }
    if is_place(unit, node) {
        return unless_constant(syntax, results, at);
    }
    Err(CheckFault::BadOperand(at))
}

// The length within an array's brackets.
fn array_length(
    unit: &Unit,
    syntax: &Syntax,
    results: &Results,
    at: u32,
    rest: &[u32],
) -> Result<Option<u64>, CheckFault>
    requires at { at < length syntax.now.tree.now.nodes.items }
    requires ready { IsReady unit.now }
    requires results { All (IsWithin unit.now) results.now }
    requires rows { All (HasConstants unit.now) results.now }
    ensures { (w : World) →
        LengthMade result
        (spec.array_length w (source_read syntax.now) (sense_in (senses_made unit.now results.now)) at rest.now) }
{
    match child_of(syntax, ASSIGNMENT, at) {
        Some(expression) => match node_at(results, expression) {
            Some(node) => node_length(unit, syntax, results, at, node),
            None => Err(CheckFault::BadOperand(at)),
        },
        None => {
            if any_where(syntax, Test::Sign(SIGN_STAR), rest) {
                unless_constant(syntax, results, at)
            } else {
                Ok(None)
            }
        }
    }
}

// Whether static or a qualifier stands within an array's brackets.
fn has_array_words(syntax: &Syntax, rest: &[u32]) -> bool
    ensures { (w : World) (sense : ℕ → Sense) → result ≡ spec.has_array_words w (source_read syntax.now) sense rest.now }
{
    any_where(syntax, Test::Word(WORD_STATIC), rest)
        || any_where(syntax, Test::IsA(QUALIFIER), rest)
}

// Whether static and qualifiers stand in a parameter's outermost array alone.
fn words_allowed(syntax: &Syntax, results: &Results, at: u32, rest: &[u32]) -> bool
    requires { at < length syntax.now.tree.now.nodes.items }
    ensures { (u : UnitSpec) (w : World) →
        let s = source_read syntax.now in
        let sense = sense_in (senses_made u results.now) in
        result ≡ (spec.is_parameter_array w s sense at || not (spec.has_array_words w s sense rest.now)) }
{
    if !has_array_words(syntax, rest) {
        return true;
    }
    is_parameter_array(syntax, results, at)
}

// What stands behind the first number of a list.
fn behind_first(children: &[u32]) -> &[u32]
    requires { 1 ≤ length children.now }
    ensures { result.now ≡ drop 1 children.now }
{
    let (_, rest) = children.split_at(1);
    rest
}

// An array's suffix (C11 6.7.6.2p1).
fn array_suffix(
    unit: &Unit,
    syntax: &Syntax,
    results: &Results,
    at: u32,
    rest: &[u32],
) -> Result<Option<u64>, CheckFault>
    requires at { at < length syntax.now.tree.now.nodes.items }
    requires ready { IsReady unit.now }
    requires results { All (IsWithin unit.now) results.now }
    requires rows { All (HasConstants unit.now) results.now }
    ensures { (w : World) →
        LengthMade result
        (spec.array_suffix w (source_read syntax.now) (sense_in (senses_made unit.now results.now)) at rest.now) }
{
    if !words_allowed(syntax, results, at, rest) {
        return Err(CheckFault::BadOperand(at));
    }
    array_length(unit, syntax, results, at, rest)
}

/// The row of a suffix of a declarator (C11 6.7.6.2, 6.7.6.3). The constants of the results stand in their rows, so that
/// lengths are evaluated.
pub fn suffix_row(
    alloc: Global,
    unit: &Unit,
    syntax: &Syntax,
    results: &Results,
    at: u32,
    children: &[u32],
) -> Result<Made, CheckFault>
    requires at { at < length syntax.now.tree.now.nodes.items }
    requires ready { IsReady unit.now }
    requires results { All (IsWithin unit.now) results.now }
    requires rows { All (HasConstants unit.now) results.now }
    ensures within { IfOk result (IsWithin unit.now) }
    ensures row { (w : World) (uses : List (ℕ × ℕ)) →
        Rowed unit.now result
        (spec.suffix_row w (source_in syntax.now uses) (sense_in (senses_made unit.now results.now)) at children.now) }
{
    if children.len() < 1 {
        return Err(CheckFault::BadOperand(at));
    }
    let first = children[0];
    let rest = behind_first(children);
    if has_sign(syntax, SIGN_LEFT_BRACKET, first) {
        return match array_suffix(unit, syntax, results, at, rest) {
            Ok(length) => {
                let held = BoxedDerivation::of(alloc, Derivation::Elements(length))?;
                Ok(Made::Derived(held))
            }
            Err(fault) => Err(fault),
        };
    }
    let variadic = any_where(syntax, Test::Sign(SIGN_ELLIPSIS), rest);
    match list_of(alloc, unit, results, rest, variadic) {
        Ok(list) => {
            let held = BoxedDerivation::of(alloc, list)?;
            Ok(Made::Derived(held))
        }
        Err(_) => Err(CheckFault::OutOfMemory),
    }
}

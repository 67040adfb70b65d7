// Rows of statements, by what they begin with (C11 6.8).
ghost use Rattle.std.specs.Prelude.{◌<◌, ℕ, List, Some, length, All, IfOk};
ghost use Rattle.core_tree.specs.declared.node.Unit.{Unit as UnitSpec};
ghost use Rattle.c_consts.specs.Core.{Core};
ghost use Rattle.c_senses.specs.Given.{Given};
ghost use Rattle.c_senses.specs.World.{World};
ghost use Rattle.c_senses.specs.Sense.{sense_in};
ghost use Rattle.c_senses.specs.Statements as spec;
ghost use Rattle.parsed_tree_laws.specs.sense_laws.Senses.{ChildrenFirst};
ghost use Rattle.core_nodes.specs.Standing.{IsReady, Builds, Made as CoreMade, Knows};
ghost use Rattle.c_results.specs.Standing.{senses_made, IsWithin, Rowed};
ghost use Rattle.c_conversions.specs.constant_values.Constants.{HasConstants};
ghost use Rattle.tree_reads.specs.Sources.{source_read, source_in};
ghost use Rattle.statement_rows.specs.Kinds.{AreKinds};
ghost use Rattle.statement_rows.specs.Told.{AreSpelled, IsTold};
ghost use Rattle.statement_rows.specs.Words as words;

use crate::kinds::NameKinds;
use crate::objects::for_objects;
use crate::returned::returned_type;
use c_grammar::productions::EXPRESSION;
use c_results::{Made, Results, copied_at};
use c_statements::{
    Choices, break_row, case_row, continue_row, default_row, do_row, expression_row, for_parts,
    for_row, goto_row, if_row, labelled_row, own_place, return_row, skip_row, switch_row,
    while_row,
};
use core_nodes::CheckFault;
use core_tree::node::Unit;
use std::alloc::Global;
use tree_reads::{Syntax, has_sign, is_a, is_leaf, is_name, word_of};

const SIGN_SEMICOLON: u8 = 32;

const WORD_BREAK: u8 = 1;

const WORD_CASE: u8 = 2;

const WORD_CONTINUE: u8 = 5;

const WORD_DEFAULT: u8 = 6;

const WORD_DO: u8 = 7;

const WORD_FOR: u8 = 13;

const WORD_GOTO: u8 = 14;

const WORD_IF: u8 = 15;

const WORD_RETURN: u8 = 21;

const WORD_SWITCH: u8 = 27;

const WORD_WHILE: u8 = 33;

/// What the rows of statements are told: what name resolution says of declared names, and the cases and the defaults before the
/// node.
#[derive(Clone, Copy)]
pub struct Told<'a> {
    pub kinds: &'a NameKinds,
    pub choices: &'a Choices,
}

// A for, by what stands behind its parenthesis.
fn for_statement(
    alloc: Global,
    unit: &mut Unit,
    syntax: &Syntax,
    results: &Results,
    kinds: &NameKinds,
    at: u32,
    children: &[u32],
) -> Result<u32, CheckFault>
    requires ready { IsReady unit.old }
    requires results { All (IsWithin unit.old) results.now }
    requires kinds { AreKinds (source_read syntax.now) kinds.now }
    requires ordered { ChildrenFirst (source_read syntax.now) }
    ensures ready { IsReady unit.new }
    ensures builds { Builds unit.old unit.new }
    ensures within { IfOk result (λ i. i < length unit.new.nodes.items) }
    ensures made { (w : World) (uses : List (ℕ × ℕ)) →
        Knows w unit.old →
        let s = source_in syntax.now uses in
        let sense = sense_in (senses_made unit.old results.now) in
        CoreMade unit.new result (spec.for_row w s sense at children.now) }
{
    if children.len() < 2 {
        return Err(CheckFault::BadOperand(at));
    }
    let list = &children[2..];
    let parts = for_parts(syntax, list);
    let objects = for_objects(alloc, syntax, results, kinds, parts.first)?;
    for_row(alloc, unit, syntax, results, objects, at, list)
}

// A return, by the function around it.
fn return_statement(
    alloc: Global,
    unit: &mut Unit,
    syntax: &Syntax,
    results: &Results,
    at: u32,
    children: &[u32],
) -> Result<u32, CheckFault>
    requires ready { IsReady unit.old }
    requires results { All (IsWithin unit.old) results.now }
    requires rows { All (HasConstants unit.old) results.now }
    requires ordered { ChildrenFirst (source_read syntax.now) }
    requires at { at < length syntax.now.tree.now.nodes.items }
    ensures ready { IsReady unit.new }
    ensures builds { Builds unit.old unit.new }
    ensures within { IfOk result (λ i. i < length unit.new.nodes.items) }
    ensures made { (w : World) (uses : List (ℕ × ℕ)) →
        Knows w unit.old →
        let s = source_in syntax.now uses in
        let sense = sense_in (senses_made unit.old results.now) in
        CoreMade unit.new result (spec.return_row w s sense at (spec.expression_in w s sense children.now)) }
{
    match returned_type(alloc, unit, syntax, results, at) {
        Ok(returned) => return_row(alloc, unit, syntax, results, returned, at, children),
        Err(_) => Err(CheckFault::OutOfMemory),
    }
}

// A statement that begins with a keyword of a jump, or with one of none.
fn of_jump(
    alloc: Global,
    unit: &mut Unit,
    syntax: &Syntax,
    results: &Results,
    at: u32,
    children: &[u32],
    word: u8,
) -> Result<u32, CheckFault>
    requires ready { IsReady unit.old }
    requires results { All (IsWithin unit.old) results.now }
    requires rows { All (HasConstants unit.old) results.now }
    requires ordered { ChildrenFirst (source_read syntax.now) }
    requires at { at < length syntax.now.tree.now.nodes.items }
    ensures ready { IsReady unit.new }
    ensures builds { Builds unit.old unit.new }
    ensures within { IfOk result (λ i. i < length unit.new.nodes.items) }
    ensures made { (w : World) (uses : List (ℕ × ℕ)) →
        Knows w unit.old →
        let s = source_in syntax.now uses in
        let sense = sense_in (senses_made unit.old results.now) in
        AreSpelled s → CoreMade unit.new result (words.of_jump w s sense at children.now word) }
{
    if word == WORD_GOTO {
        return goto_row(alloc, unit, syntax, at, children);
    }
    if word == WORD_CONTINUE {
        return continue_row(alloc, unit, syntax, at);
    }
    if word == WORD_BREAK {
        return break_row(alloc, unit, syntax, at);
    }
    if word == WORD_RETURN {
        return return_statement(alloc, unit, syntax, results, at, children);
    }
    Err(CheckFault::BadOperand(at))
}

// A statement that begins with a keyword of a selection or a loop, or with a later one.
fn of_condition(
    alloc: Global,
    unit: &mut Unit,
    syntax: &Syntax,
    results: &Results,
    kinds: &NameKinds,
    at: u32,
    children: &[u32],
    word: u8,
) -> Result<u32, CheckFault>
    requires ready { IsReady unit.old }
    requires results { All (IsWithin unit.old) results.now }
    requires rows { All (HasConstants unit.old) results.now }
    requires kinds { AreKinds (source_read syntax.now) kinds.now }
    requires ordered { ChildrenFirst (source_read syntax.now) }
    requires at { at < length syntax.now.tree.now.nodes.items }
    ensures ready { IsReady unit.new }
    ensures builds { Builds unit.old unit.new }
    ensures within { IfOk result (λ i. i < length unit.new.nodes.items) }
    ensures made { (w : World) (uses : List (ℕ × ℕ)) →
        Knows w unit.old →
        let s = source_in syntax.now uses in
        let sense = sense_in (senses_made unit.old results.now) in
        AreSpelled s → CoreMade unit.new result (words.of_condition w s sense at children.now word) }
{
    if word == WORD_IF {
        return if_row(alloc, unit, syntax, results, at, children);
    }
    if word == WORD_SWITCH {
        return switch_row(alloc, unit, syntax, results, at, children);
    }
    if word == WORD_WHILE {
        return while_row(alloc, unit, syntax, results, at, children);
    }
    if word == WORD_DO {
        return do_row(alloc, unit, syntax, results, at, children);
    }
    if word == WORD_FOR {
        return for_statement(alloc, unit, syntax, results, kinds, at, children);
    }
    of_jump(alloc, unit, syntax, results, at, children, word)
}

// A statement that begins with a keyword.
fn of_word(
    alloc: Global,
    unit: &mut Unit,
    syntax: &Syntax,
    results: &Results,
    told: &Told,
    at: u32,
    children: &[u32],
    word: u8,
) -> Result<u32, CheckFault>
    requires ready { IsReady unit.old }
    requires results { All (IsWithin unit.old) results.now }
    requires rows { All (HasConstants unit.old) results.now }
    requires kinds { AreKinds (source_read syntax.now) told.now.kinds.now }
    requires ordered { ChildrenFirst (source_read syntax.now) }
    requires at { at < length syntax.now.tree.now.nodes.items }
    ensures ready { IsReady unit.new }
    ensures builds { Builds unit.old unit.new }
    ensures within { IfOk result (λ i. i < length unit.new.nodes.items) }
    ensures made { (w : World) (uses : List (ℕ × ℕ)) →
        Knows w unit.old →
        let s = source_in syntax.now uses in
        let sense = sense_in (senses_made unit.old results.now) in
        IsTold w s sense at told.now.choices.now →
        CoreMade unit.new result (spec.of_word w s sense at children.now (Some word)) }
{
    let choices = told.choices;
    if word == WORD_CASE {
        return case_row(alloc, unit, syntax, results, &choices.cases, at, children);
    }
    if word == WORD_DEFAULT {
        return default_row(
            alloc,
            unit,
            syntax,
            results,
            &choices.defaults,
            at,
            children,
        );
    }
    of_condition(alloc, unit, syntax, results, told.kinds, at, children, word)
}

// A statement that begins with a token.
fn leaf_statement(
    alloc: Global,
    unit: &mut Unit,
    syntax: &Syntax,
    results: &Results,
    told: &Told,
    at: u32,
    first: u32,
    children: &[u32],
) -> Result<u32, CheckFault>
    requires ready { IsReady unit.old }
    requires results { All (IsWithin unit.old) results.now }
    requires rows { All (HasConstants unit.old) results.now }
    requires kinds { AreKinds (source_read syntax.now) told.now.kinds.now }
    requires ordered { ChildrenFirst (source_read syntax.now) }
    requires at { at < length syntax.now.tree.now.nodes.items }
    ensures ready { IsReady unit.new }
    ensures builds { Builds unit.old unit.new }
    ensures within { IfOk result (λ i. i < length unit.new.nodes.items) }
    ensures made { (w : World) (uses : List (ℕ × ℕ)) →
        Knows w unit.old →
        let s = source_in syntax.now uses in
        let sense = sense_in (senses_made unit.old results.now) in
        IsTold w s sense at told.now.choices.now →
        CoreMade unit.new result (spec.leaf_statement w s sense at first children.now) }
{
    if has_sign(syntax, SIGN_SEMICOLON, first) {
        return skip_row(alloc, unit, syntax, at);
    }
    if is_name(syntax, first) {
        return labelled_row(alloc, unit, syntax, results, at, first, children);
    }
    match word_of(syntax, first) {
        Some(word) => of_word(alloc, unit, syntax, results, told, at, children, word),
        None => Err(CheckFault::BadOperand(at)),
    }
}

/// A core node that a row answers, as what has been made.
pub fn made_of(node: Result<u32, CheckFault>) -> Result<Made, CheckFault>
    ensures row { (u : UnitSpec) (g : Given Core) → CoreMade u node g → Rowed u result (words.sensed g) }
    ensures within { (u : UnitSpec) → IfOk node (λ i. i < length u.nodes.items) → IfOk result (IsWithin u) }
{
    match node {
        Ok(node) => Ok(Made::Node(node)),
        Err(fault) => Err(fault),
    }
}

/// The row of a statement (C11 6.8) by what it begins with: a keyword, a name before a colon, a semicolon, an expression or a
/// block. It is `operand` at `at` where it begins with another token or is empty, and else refused as its own row is.
pub fn statement_row(
    alloc: Global,
    unit: &mut Unit,
    syntax: &Syntax,
    results: &Results,
    told: &Told,
    at: u32,
    children: &[u32],
) -> Result<Made, CheckFault>
    requires ready { IsReady unit.old }
    requires results { All (IsWithin unit.old) results.now }
    requires rows { All (HasConstants unit.old) results.now }
    requires kinds { AreKinds (source_read syntax.now) told.now.kinds.now }
    requires ordered { ChildrenFirst (source_read syntax.now) }
    requires at { at < length syntax.now.tree.now.nodes.items }
    ensures ready { IsReady unit.new }
    ensures builds { Builds unit.old unit.new }
    ensures within { IfOk result (IsWithin unit.new) }
    ensures row { (w : World) (uses : List (ℕ × ℕ)) →
        Knows w unit.old →
        let s = source_in syntax.now uses in
        let sense = sense_in (senses_made unit.old results.now) in
        IsTold w s sense at told.now.choices.now →
        Rowed unit.new result (spec.statement_row w s sense at children.now) }
{
    if children.is_empty() {
        return Err(CheckFault::BadOperand(at));
    }
    let first = children[0];
    if is_leaf(syntax, first) {
        return made_of(leaf_statement(alloc, unit, syntax, results, told, at, first, children));
    }
    if is_a(syntax, EXPRESSION, first) {
        let place = own_place(syntax, first);
        return made_of(expression_row(alloc, unit, results, at, first, place));
    }
    match copied_at(alloc, results, first) {
        Ok(made) => Ok(made),
        Err(_) => Err(CheckFault::OutOfMemory),
    }
}

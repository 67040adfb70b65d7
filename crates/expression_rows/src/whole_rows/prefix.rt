// What stands before an operand: an operator, `sizeof` or `_Alignof` (C11 6.5.3).
ghost use Rattle.std.specs.Prelude.{◌≡◌, ◌<◌, ℕ, length, drop, get_or, IfOk, All};
ghost use Rattle.c_types.specs.Table.{type_of};
ghost use Rattle.c_senses.specs.Given.{Fits};
ghost use Rattle.c_senses.specs.World.{World};
ghost use Rattle.c_senses.specs.Sense.{Sense, sense_in};
ghost use Rattle.c_senses.specs.Tree.{kind_at, Source};
ghost use Rattle.c_senses.specs.Expressions as expressions;
ghost use Rattle.c_senses.specs.Objects as objects;
ghost use Rattle.core_nodes.specs.Standing.{core_at, IsReady, Builds, Made as CoreMade, Knows};
ghost use Rattle.c_results.specs.Standing.{sense_made, senses_made, IsWithin, Rowed};
ghost use Rattle.tree_reads.specs.Sources.{source_read};
ghost use Rattle.c_conversions.specs.Constants.{HasRows};
ghost use Rattle.expression_rows.specs.whole_rows.Constants.{SenseHasRows, HaveRowsMade};
ghost use Rattle.expression_rows.specs.whole_rows.Prefix as spec;

use crate::c_rows::counted;
use crate::c_rows::parts::{behind_first, passed_on, sensed, type_of};
use crate::whole_rows::operands::operand_of;
use c_grammar::productions::TYPE_NAME;
use c_lexer::TokenKind;
use c_operators::objects::{address_row, indirection_row, not_row, promoted_row};
use c_operators::operators::sort_of_node;
use c_results::{Made, Results};
use c_types::term::{Term, TypeId};
use core_nodes::CheckFault;
use core_nodes::reads::type_of_node;
use core_nodes::trees::{add_type, push_leaf};
use core_nodes::values::value;
use core_nodes::widths::named_width;
use core_tree::held::Number;
use core_tree::node::{NodeKind, Op, Unit};
use pta_base::Place;
use std::alloc::Global;
use tree_reads::{Syntax, Test, is_a, is_leaf, kind_of, last_where, place_of};

const SIGN_INCREMENT: u8 = 8;

const SIGN_DECREMENT: u8 = 9;

const SIGN_AMPERSAND: u8 = 10;

const SIGN_STAR: u8 = 11;

const SIGN_PLUS: u8 = 12;

const SIGN_MINUS: u8 = 13;

const SIGN_TILDE: u8 = 14;

const SIGN_EXCLAMATION: u8 = 15;

const WORD_SIZEOF: u8 = 24;

const WORD_ALIGNOF: u8 = 35;

// An operator over the value of its operand.
fn value_row(
    alloc: Global,
    unit: &mut Unit,
    place: Place,
    at: u32,
    v: u32,
    sign: u8,
) -> Result<u32, CheckFault>
    requires ready { IsReady unit.old }
    requires v { v < length unit.old.nodes.items }
    ensures ready { IsReady unit.new }
    ensures builds { Builds unit.old unit.new }
    ensures within { IfOk result (λ i. i < length unit.new.nodes.items) }
    ensures made { (w : World) →
        Knows w unit.old →
        CoreMade unit.new result (expressions.value_core w place at (core_at unit.old v) sign) }
{
    let x = sort_of_node(unit, v);
    if sign == SIGN_STAR {
        return indirection_row(alloc, unit, place, at, v, x);
    }
    if sign == SIGN_PLUS {
        return promoted_row(alloc, unit, Op::Plus, place, at, v, x);
    }
    if sign == SIGN_MINUS {
        return promoted_row(alloc, unit, Op::Minus, place, at, v, x);
    }
    if sign == SIGN_TILDE {
        return promoted_row(alloc, unit, Op::Complement, place, at, v, x);
    }
    not_row(alloc, unit, place, at, v)
}

// An operator before its operand.
fn operator_row(
    alloc: Global,
    unit: &mut Unit,
    place: Place,
    at: u32,
    operand: u32,
    sign: u8,
) -> Result<u32, CheckFault>
    requires ready { IsReady unit.old }
    requires operand { operand < length unit.old.nodes.items }
    ensures ready { IsReady unit.new }
    ensures builds { Builds unit.old unit.new }
    ensures within { IfOk result (λ i. i < length unit.new.nodes.items) }
    ensures made { (w : World) →
        Knows w unit.old →
        CoreMade unit.new result (expressions.operator_core w place at (core_at unit.old operand) sign) }
{
    if sign == SIGN_AMPERSAND {
        return address_row(alloc, unit, place, at, operand);
    }
    match value(alloc, unit, at, operand) {
        Ok(v) => value_row(alloc, unit, place, at, v, sign),
        Err(fault) => Err(fault),
    }
}

// Whether a punctuator is an operator before its operand that changes nothing.
fn is_operator(sign: u8) -> bool
    ensures { result ≡ expressions.is_operator sign }
{
    sign == SIGN_AMPERSAND
        || sign == SIGN_STAR
        || sign == SIGN_PLUS
        || sign == SIGN_MINUS
        || sign == SIGN_TILDE
        || sign == SIGN_EXCLAMATION
}

// What an operator makes of its operand.
fn prefixed_node(
    alloc: Global,
    unit: &mut Unit,
    place: Place,
    at: u32,
    operand: u32,
    sign: u8,
) -> Result<u32, CheckFault>
    requires ready { IsReady unit.old }
    requires operand { operand < length unit.old.nodes.items }
    ensures ready { IsReady unit.new }
    ensures builds { Builds unit.old unit.new }
    ensures within { IfOk result (λ i. i < length unit.new.nodes.items) }
    ensures made { (w : World) (s : Source) (sense : ℕ → Sense) →
        Knows w unit.old →
        CoreMade unit.new result (expressions.prefixed_core w s sense place at (core_at unit.old operand) sign) }
{
    if is_operator(sign) {
        return operator_row(alloc, unit, place, at, operand, sign);
    }
    if sign == SIGN_INCREMENT {
        return counted(alloc, unit, place, at, operand, false, false);
    }
    if sign == SIGN_DECREMENT {
        return counted(alloc, unit, place, at, operand, true, false);
    }
    Err(CheckFault::BadOperand(at))
}

// An operator before a part.
fn prefixed(
    alloc: Global,
    unit: &mut Unit,
    results: &Results,
    place: Place,
    at: u32,
    sign: u8,
    children: &[u32],
) -> Result<Made, CheckFault>
    requires ready { IsReady unit.old }
    requires within { All (IsWithin unit.old) results.now }
    requires rows { HaveRowsMade unit.old results.now }
    requires some { 0 < length children.now }
    ensures ready { IsReady unit.new }
    ensures builds { Builds unit.old unit.new }
    ensures within { IfOk result (IsWithin unit.new) }
    ensures rows { IfOk result (λ m. SenseHasRows (sense_made unit.new m)) }
    ensures row { (w : World) (s : Source) →
        Knows w unit.old →
        Rowed unit.new result
        (expressions.prefixed w s (sense_in (senses_made unit.old results.now)) place at sign (drop 1 children.now)) }
{
    if children.len() < 2 {
        return Err(CheckFault::BadOperand(at));
    }
    match operand_of(unit, results, at, children[1]) {
        Ok(operand) => sensed(prefixed_node(alloc, unit, place, at, operand, sign)),
        Err(fault) => Err(fault),
    }
}

// The number of a size.
fn size_number(alloc: Global, unit: &mut Unit, place: Place, size: u64) -> Result<u32, CheckFault>
    requires ready { IsReady unit.old }
    ensures ready { IsReady unit.new }
    ensures builds { Builds unit.old unit.new }
    ensures within { IfOk result (λ i. i < length unit.new.nodes.items) }
    ensures rows { IfOk result (λ i. HasRows (core_at unit.new i)) }
    ensures made { CoreMade unit.new result (Fits (objects.size_number place size)) }
{
    let ty = add_type(
        unit,
        Term::Integer {
            size: 8,
            rank: 5,
            signed: false,
        },
    )?;
    push_leaf(
        alloc,
        unit,
        NodeKind::Number(Number::of(i128::from(size))),
        place,
        ty,
    )
}

// The size of a type (C11 6.5.3.4).
fn size_row(
    alloc: Global,
    unit: &mut Unit,
    place: Place,
    at: u32,
    ty: TypeId,
) -> Result<u32, CheckFault>
    requires ready { IsReady unit.old }
    requires ty { ty.0 < length unit.old.types.terms }
    ensures ready { IsReady unit.new }
    ensures builds { Builds unit.old unit.new }
    ensures within { IfOk result (λ i. i < length unit.new.nodes.items) }
    ensures rows { IfOk result (λ i. HasRows (core_at unit.new i)) }
    ensures made { (w : World) →
        Knows w unit.old →
        CoreMade unit.new result (objects.size_row w place at (type_of unit.old.types ty.0)) }
{
    match unit.types.size_of(ty) {
        Some(size) => size_number(alloc, unit, place, size),
        None => Err(CheckFault::BadOperand(at)),
    }
}

// The alignment of a type (C11 6.5.3.4).
fn align_row(
    alloc: Global,
    unit: &mut Unit,
    place: Place,
    at: u32,
    ty: TypeId,
) -> Result<u32, CheckFault>
    requires ready { IsReady unit.old }
    requires ty { ty.0 < length unit.old.types.terms }
    ensures ready { IsReady unit.new }
    ensures builds { Builds unit.old unit.new }
    ensures within { IfOk result (λ i. i < length unit.new.nodes.items) }
    ensures rows { IfOk result (λ i. HasRows (core_at unit.new i)) }
    ensures made { (w : World) →
        Knows w unit.old →
        CoreMade unit.new result (objects.align_row w place at (type_of unit.old.types ty.0)) }
{
    match unit.types.align_of(ty) {
        Some(align) => size_number(alloc, unit, place, align),
        None => Err(CheckFault::BadOperand(at)),
    }
}

// The size of an expression, which isn't evaluated: an array stays one, and a bit-field has none (C11 6.5.3.4p1, p2).
fn sized_expression(
    alloc: Global,
    unit: &mut Unit,
    place: Place,
    at: u32,
    node: u32,
) -> Result<u32, CheckFault>
    requires ready { IsReady unit.old }
    requires node { node < length unit.old.nodes.items }
    ensures ready { IsReady unit.new }
    ensures builds { Builds unit.old unit.new }
    ensures within { IfOk result (λ i. i < length unit.new.nodes.items) }
    ensures rows { IfOk result (λ i. HasRows (core_at unit.new i)) }
    ensures made { (w : World) →
        Knows w unit.old →
        CoreMade unit.new result (objects.sized_expression w place at (core_at unit.old node)) }
{
    if named_width(unit, node).is_some() {
        return Err(CheckFault::BadOperand(at));
    }
    let ty = type_of_node(unit, node);
    size_row(alloc, unit, place, at, ty)
}

// The size of a part: a type, or an expression.
fn sized_part(
    alloc: Global,
    unit: &mut Unit,
    syntax: &Syntax,
    results: &Results,
    place: Place,
    at: u32,
    part: u32,
) -> Result<u32, CheckFault>
    requires ready { IsReady unit.old }
    requires within { All (IsWithin unit.old) results.now }
    requires rows { HaveRowsMade unit.old results.now }
    ensures ready { IsReady unit.new }
    ensures builds { Builds unit.old unit.new }
    ensures within { IfOk result (λ i. i < length unit.new.nodes.items) }
    ensures rows { IfOk result (λ i. HasRows (core_at unit.new i)) }
    ensures made { (w : World) →
        Knows w unit.old →
        CoreMade unit.new result
        (spec.sized_part w (source_read syntax.now) (sense_in (senses_made unit.old results.now)) place at part) }
{
    if is_a(syntax, TYPE_NAME, part) {
        return match type_of(unit, results, at, part) {
            Ok(ty) => size_row(alloc, unit, place, at, ty),
            Err(fault) => Err(fault),
        };
    }
    match operand_of(unit, results, at, part) {
        Ok(node) => sized_expression(alloc, unit, place, at, node),
        Err(fault) => Err(fault),
    }
}

// The alignment of a part, which is a type.
fn aligned_part(
    alloc: Global,
    unit: &mut Unit,
    results: &Results,
    place: Place,
    at: u32,
    part: u32,
) -> Result<u32, CheckFault>
    requires ready { IsReady unit.old }
    requires within { All (IsWithin unit.old) results.now }
    requires rows { HaveRowsMade unit.old results.now }
    ensures ready { IsReady unit.new }
    ensures builds { Builds unit.old unit.new }
    ensures within { IfOk result (λ i. i < length unit.new.nodes.items) }
    ensures rows { IfOk result (λ i. HasRows (core_at unit.new i)) }
    ensures made { (w : World) (s : Source) →
        Knows w unit.old →
        CoreMade unit.new result (spec.aligned_part w s (sense_in (senses_made unit.old results.now)) place at part) }
{
    match type_of(unit, results, at, part) {
        Ok(ty) => align_row(alloc, unit, place, at, ty),
        Err(fault) => Err(fault),
    }
}

// A word before its operand: the size or the alignment of the last part.
fn worded(
    alloc: Global,
    unit: &mut Unit,
    syntax: &Syntax,
    results: &Results,
    place: Place,
    at: u32,
    word: u8,
    rest: &[u32],
) -> Result<Made, CheckFault>
    requires ready { IsReady unit.old }
    requires within { All (IsWithin unit.old) results.now }
    requires rows { HaveRowsMade unit.old results.now }
    ensures ready { IsReady unit.new }
    ensures builds { Builds unit.old unit.new }
    ensures within { IfOk result (IsWithin unit.new) }
    ensures rows { IfOk result (λ m. SenseHasRows (sense_made unit.new m)) }
    ensures row { (w : World) →
        Knows w unit.old →
        Rowed unit.new result
        (expressions.worded w (source_read syntax.now) (sense_in (senses_made unit.old results.now)) place at rest.now word) }
{
    if word == WORD_SIZEOF {
        return match last_where(syntax, Test::Inner, rest) {
            Some(part) => sensed(sized_part(alloc, unit, syntax, results, place, at, part)),
            None => Err(CheckFault::BadOperand(at)),
        };
    }
    if word == WORD_ALIGNOF {
        return match last_where(syntax, Test::Inner, rest) {
            Some(part) => sensed(aligned_part(alloc, unit, results, place, at, part)),
            None => Err(CheckFault::BadOperand(at)),
        };
    }
    Err(CheckFault::BadOperand(at))
}

// What begins with a token: an operator or a word.
fn begun(
    alloc: Global,
    unit: &mut Unit,
    syntax: &Syntax,
    results: &Results,
    at: u32,
    children: &[u32],
) -> Result<Made, CheckFault>
    requires ready { IsReady unit.old }
    requires within { All (IsWithin unit.old) results.now }
    requires rows { HaveRowsMade unit.old results.now }
    requires some { 0 < length children.now }
    ensures ready { IsReady unit.new }
    ensures builds { Builds unit.old unit.new }
    ensures within { IfOk result (IsWithin unit.new) }
    ensures rows { IfOk result (λ m. SenseHasRows (sense_made unit.new m)) }
    ensures row { (w : World) →
        Knows w unit.old →
        let s = source_read syntax.now in
        let first = get_or children.now 0 0 in
        Rowed unit.new result
        (spec.begun w s (sense_in (senses_made unit.old results.now)) at first (drop 1 children.now) (kind_at s first)) }
{
    let place = place_of(syntax, children[0]);
    match kind_of(syntax, children[0]) {
        TokenKind::Punctuator(sign) => prefixed(alloc, unit, results, place, at, sign, children),
        TokenKind::Keyword(word) => worded(
            alloc,
            unit,
            syntax,
            results,
            place,
            at,
            word,
            behind_first(children),
        ),
        TokenKind::Identifier | TokenKind::Integer | TokenKind::Floating => Err(
            CheckFault::BadOperand(at),
        ),
        TokenKind::Character | TokenKind::Text | TokenKind::End => Err(CheckFault::BadOperand(at)),
    }
}

/// The row of a unary expression (C11 6.5.3): an operator, `sizeof` or `_Alignof` before its operand, or what ends a primary with what
/// follows it.
pub fn unary_row(
    alloc: Global,
    unit: &mut Unit,
    syntax: &Syntax,
    results: &Results,
    at: u32,
    children: &[u32],
) -> Result<Made, CheckFault>
    requires ready { IsReady unit.old }
    requires within { All (IsWithin unit.old) results.now }
    requires rows { HaveRowsMade unit.old results.now }
    ensures ready { IsReady unit.new }
    ensures builds { Builds unit.old unit.new }
    ensures within { IfOk result (IsWithin unit.new) }
    ensures rows { IfOk result (λ m. SenseHasRows (sense_made unit.new m)) }
    ensures row { (w : World) →
        Knows w unit.old →
        Rowed unit.new result
        (expressions.unary_row w (source_read syntax.now) (sense_in (senses_made unit.old results.now)) at children.now) }
{
    if children.is_empty() {
        return Err(CheckFault::BadOperand(at));
    }
    if is_leaf(syntax, children[0]) {
        return begun(alloc, unit, syntax, results, at, children);
    }
    passed_on(alloc, results, children[children.len() - 1])
}

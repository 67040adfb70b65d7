// Rows of compound literals (C11 6.5.2.5).
ghost use Rattle.std.specs.Prelude.{◌≡◌, ◌<◌, ◌&&◌, ◌||◌, not, true, ℕ, List, slice_get, length, All, IfOk};
ghost use Rattle.c_types.specs.Table.{type_of};
ghost use Rattle.c_grammar.specs.Productions.{p_items, p_cast, p_unary};
ghost use Rattle.c_consts.specs.Core.{over};
ghost use Rattle.core_tree.specs.declared.node.NodeKind.TheVariants.{Literal};
ghost use Rattle.pta_base.specs.declared.kind.Kind.TheVariants as kinds;
ghost use Rattle.c_senses.specs.World.{World};
ghost use Rattle.c_senses.specs.Tree.{production_of, is_a};
ghost use Rattle.c_senses.specs.Sense.{sense_in};
ghost use Rattle.c_senses.specs.Limits.{within_limits};
ghost use Rattle.c_senses.specs.Given.{Fits, given_if};
ghost use Rattle.c_senses.specs.Conversions.{typed};
ghost use Rattle.c_senses.specs.Entities as entities;
ghost use Rattle.c_senses.specs.Initialised as spec;
ghost use Rattle.core_nodes.specs.Standing.{core_at, IsReady, Builds, Knows, Made as CoreMade};
ghost use Rattle.c_conversions.specs.Constants.{HasRows};
ghost use Rattle.c_conversions.specs.constant_values.Constants.{HasConstants};
ghost use Rattle.c_results.specs.Standing.{senses_made, sense_made, IsWithin, Rowed};
ghost use Rattle.tree_reads.specs.Sources.{source_read, source_in};
ghost use Rattle.name_places.specs.Named.{IsNamedIn};
ghost use Rattle.statement_rows.specs.Kept.{HasAllRows};
ghost use Rattle.init_rows.specs.Around.{IsList};
ghost use Rattle.init_rows.specs.Literals.{sign_or, IsTypedAs, fitting};

use crate::objects::{Object, Target, list_initialised};
use crate::types::{both, is_small};
use c_entities::with_length;
use c_grammar::productions::{CAST, TYPE_NAME, UNARY};
use c_initials::storage::{Scope, is_in_body};
use c_results::{Made, type_at};
use c_types::table::TypeTable;
use c_types::term::{Term, TypeId};
use core_nodes::CheckFault;
use core_nodes::trees::push_over;
use core_tree::node::{NodeKind, Unit};
use name_places::is_in_static;
use pta_base::{Kind, Place};
use std::alloc::Global;
use tree_reads::{Syntax, Test, child_of, children_of, first_where, is_a, place_of};

const SIGN_LEFT_PARENTHESIS: u8 = 2;

const SIGN_LEFT_BRACE: u8 = 4;

// The first leaf of a sign among a node's children, or the node itself.
fn first_sign(syntax: &Syntax, sign: u8, node: u32) -> u32
    ensures { result ≡ sign_or (source_read syntax.now) sign node }
{
    match first_where(syntax, Test::Sign(sign), children_of(syntax, node)) {
        Some(leaf) => leaf,
        None => node,
    }
}

// Whether the first is so and the second isn't.
fn without(first: bool, second: bool) -> bool
    ensures { result ≡ (first && not second) }
{
    first && !second
}

// The node of a compound literal over that of its object, by the leaf of its parenthesis; it is refused there where its type is past
// the limits, or where it is refused already.
fn literal_node(
    alloc: Global,
    unit: &mut Unit,
    object: Object,
    opening: u32,
    place: Place,
    ty: TypeId,
    refused: bool,
) -> Result<u32, CheckFault>
    requires ready { IsReady unit.old }
    requires object { object.node < length unit.old.nodes.items }
    requires rows { HasRows (core_at unit.old object.node) }
    requires ty { ty.0 < length unit.old.types.terms }
    ensures ready { IsReady unit.new }
    ensures builds { Builds unit.old unit.new }
    ensures within { IfOk result (λ i. i < length unit.new.nodes.items) }
    ensures rows { IfOk result (λ i. HasRows (core_at unit.new i)) }
    ensures made { (w : World) →
        Knows w unit.old →
        let t = entities.with_length object.length (type_of unit.old.types ty.0) in
        within_limits w (type_of unit.old.types ty.0) ≡ true →
        CoreMade unit.new result
        (given_if (within_limits w t && not refused) kinds.Operand opening
        (Fits (over (Literal opening) place t (core_at unit.old object.node)))) }
{
    let Ok(whole) = with_length(unit, object.length, ty) else {
        return Err(CheckFault::OutOfMemory);
    };
    let small = is_small(unit, whole);
    if !without(small, refused) {
        return Err(CheckFault::BadOperand(opening));
    }
    push_over(
        alloc,
        unit,
        NodeKind::Literal(opening),
        place,
        whole,
        object.node,
    )
}

// The node of the compound literal of a type whose list is at a node, behind the type name of `parent`.
fn literal_of(
    alloc: Global,
    unit: &mut Unit,
    scope: &Scope,
    parent: u32,
    ty: TypeId,
    at: u32,
) -> Result<u32, CheckFault>
    requires ready { IsReady unit.old }
    requires results { All (IsWithin unit.old) scope.now.results.now }
    requires rows { All (HasConstants unit.old) scope.now.results.now }
    requires named { All (IsNamedIn (length scope.now.syntax.now.tree.now.nodes.items)) scope.now.results.now }
    requires ty { ty.0 < length unit.old.types.terms }
    requires at { at < length scope.now.syntax.now.tree.now.nodes.items }
    requires list { production_of (slice_get scope.now.syntax.now.tree.now.nodes.items at) ≡ p_items }
    ensures ready { IsReady unit.new }
    ensures builds { Builds unit.old unit.new }
    ensures within { IfOk result (λ i. i < length unit.new.nodes.items) }
    ensures rows { IfOk result (λ i. HasRows (core_at unit.new i)) }
    ensures made { (w : World) (uses : List (ℕ × ℕ)) →
        IsList w unit.old scope.now →
        let s = source_in scope.now.syntax.now uses in
        let sense = sense_in (senses_made unit.old scope.now.results.now) in
        let t = type_of unit.old.types ty.0 in
        within_limits w t ≡ true →
        CoreMade unit.new result (spec.literal_of w s sense at parent t) }
{
    let opening = first_sign(scope.syntax, SIGN_LEFT_PARENTHESIS, parent);
    let brace = first_sign(scope.syntax, SIGN_LEFT_BRACE, parent);
    let in_body = is_in_body(scope.syntax, at);
    let target = Target {
        is_static: !in_body,
        entity: opening,
        place: place_of(scope.syntax, brace),
        ty,
    };
    let object = match list_initialised(alloc, unit, scope, target, brace, at) {
        Ok(object) => object,
        Err(fault) => return Err(fault),
    };
    let in_static = is_in_static(scope.syntax, scope.results, at);
    let refused = both(in_body, in_static);
    let place = place_of(scope.syntax, opening);
    literal_node(alloc, unit, object, opening, place, ty, refused)
}

// Why an expression of a type is refused whatever else is wrong with it, if it is.
fn refused_type(types: &TypeTable, ty: TypeId) -> Option<Kind>
    requires { ty.0 < length types.now.terms }
    ensures { IsTypedAs (type_of types.now ty.0) result }
{
    match types.term(ty) {
        Term::Floating => Some(Kind::Floating),
        _ => None,
    }
}

// The row of the list of a compound literal of a type.
fn literal_row(
    alloc: Global,
    unit: &mut Unit,
    scope: &Scope,
    parent: u32,
    ty: TypeId,
    at: u32,
) -> Result<Made, CheckFault>
    requires ready { IsReady unit.old }
    requires results { All (IsWithin unit.old) scope.now.results.now }
    requires rows { All (HasConstants unit.old) scope.now.results.now }
    requires named { All (IsNamedIn (length scope.now.syntax.now.tree.now.nodes.items)) scope.now.results.now }
    requires ty { ty.0 < length unit.old.types.terms }
    requires at { at < length scope.now.syntax.now.tree.now.nodes.items }
    requires list { production_of (slice_get scope.now.syntax.now.tree.now.nodes.items at) ≡ p_items }
    ensures ready { IsReady unit.new }
    ensures builds { Builds unit.old unit.new }
    ensures within { IfOk result (IsWithin unit.new) }
    ensures kept { IfOk result (λ m. HasAllRows (sense_made unit.new m)) }
    ensures named { (count : ℕ) → IfOk result (IsNamedIn count) }
    ensures row { (w : World) (uses : List (ℕ × ℕ)) →
        IsList w unit.old scope.now →
        let s = source_in scope.now.syntax.now uses in
        let sense = sense_in (senses_made unit.old scope.now.results.now) in
        let t = type_of unit.old.types ty.0 in
        within_limits w t ≡ true →
        Rowed unit.new result (fitting (typed (spec.opening w s sense parent) t (spec.literal_of w s sense at parent t))) }
{
    match refused_type(&unit.types, ty) {
        Some(kind) => {
            let opening = first_sign(scope.syntax, SIGN_LEFT_PARENTHESIS, parent);
            Err(CheckFault::Unsupported(kind, opening))
        }
        None => match literal_of(alloc, unit, scope, parent, ty, at) {
            Ok(node) => Ok(Made::Node(node)),
            Err(fault) => Err(fault),
        },
    }
}

// Whether a list under a node stands behind a type name.
fn takes_literals(syntax: &Syntax, node: u32) -> bool
    ensures { let s = source_read syntax.now in result ≡ (is_a s p_cast node || is_a s p_unary node) }
{
    is_a(syntax, CAST, node) || is_a(syntax, UNARY, node)
}

/// The row of a list of initialisers (C11 6.5.2.5): behind a type name it is a compound literal, which gives its object's node; any other
/// list has no sense of its own. It is refused as an initialiser at the first value that has no place, or at its brace; as an operand at
/// a value that isn't one of the type there, or isn't fixed for a literal outside of functions, and at its parenthesis where its type is
/// past the limits, or where it stands in a function and within the initialiser of a static object; and by its type there, as any
/// expression.
pub fn items_row(alloc: Global, unit: &mut Unit, scope: &Scope, at: u32) -> Result<Made, CheckFault>
    requires ready { IsReady unit.old }
    requires results { All (IsWithin unit.old) scope.now.results.now }
    requires rows { All (HasConstants unit.old) scope.now.results.now }
    requires named { All (IsNamedIn (length scope.now.syntax.now.tree.now.nodes.items)) scope.now.results.now }
    requires at { at < length scope.now.syntax.now.tree.now.nodes.items }
    requires list { production_of (slice_get scope.now.syntax.now.tree.now.nodes.items at) ≡ p_items }
    ensures ready { IsReady unit.new }
    ensures builds { Builds unit.old unit.new }
    ensures within { IfOk result (IsWithin unit.new) }
    ensures kept { IfOk result (λ m. HasAllRows (sense_made unit.new m)) }
    ensures named { (count : ℕ) → IfOk result (IsNamedIn count) }
    ensures row { (w : World) (uses : List (ℕ × ℕ)) →
        IsList w unit.old scope.now →
        let s = source_in scope.now.syntax.now uses in
        let sense = sense_in (senses_made unit.old scope.now.results.now) in
        Rowed unit.new result (spec.items_row w s sense at) }
{
    let Some(parent) = scope.syntax.parent_of(at) else {
        return Ok(Made::Nothing);
    };
    if !takes_literals(scope.syntax, parent) {
        return Ok(Made::Nothing);
    }
    let Some(named) = child_of(scope.syntax, TYPE_NAME, parent) else {
        return Err(CheckFault::BadOperand(at));
    };
    match type_at(scope.results, named) {
        Some(ty) => literal_row(alloc, unit, scope, parent, ty, at),
        None => Err(CheckFault::BadOperand(at)),
    }
}

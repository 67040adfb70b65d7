// Operations on variadic lists (C11 7.16.1).
ghost use Rattle.std.specs.Prelude.{◌≡◌, ◌<◌, ◌&&◌, ◌∷◌, [], ℕ, List, not, length, codes, unwrap_or, IfOk, All, Some, None};
ghost use Rattle.pta_base.specs.declared.kind.Kind.TheVariants.{Operand};
ghost use Rattle.c_types.specs.Trees.{VaListType};
ghost use Rattle.core_tree.specs.declared.node.NodeKind.TheVariants.{Assign, NextArg};
ghost use Rattle.c_consts.specs.Core.{ctype_of, over, over_two};
ghost use Rattle.c_senses.specs.Conversions as conversions;
ghost use Rattle.c_senses.specs.Given.{Fits, given_if};
ghost use Rattle.c_senses.specs.Tree.{all_where, last_where, is_leaf, place_at, spelling_at};
ghost use Rattle.c_senses.specs.Objects as spec;
ghost use Rattle.c_senses.specs.World.{World};
ghost use Rattle.c_senses.specs.Sense.{sense_in};
ghost use Rattle.std.specs.Str.{bytes_eq};
ghost use Rattle.c_senses.specs.Expressions as expressions;
ghost use Rattle.c_types.specs.Table.{type_of};
ghost use Rattle.core_nodes.specs.Standing.{core_at, IsReady, Builds, Made as CoreMade, Knows};
ghost use Rattle.c_results.specs.Standing.{senses_made, IsWithin, Rowed};
ghost use Rattle.tree_reads.specs.Sources.{source_read};
ghost use Rattle.expression_rows.specs.c_rows.Lists.{FurtherFits, SecondFits, NamesLast, LeafFits, named_leaf, lone_leaf};
ghost use Rattle.expression_rows.specs.c_rows.Lists.{first_in, last_in, parts_seen, ended_core, next_core, copied_core};
ghost use Rattle.expression_rows.specs.c_rows.Lists.{started_core};

use crate::c_rows::parts::{core_of, sensed, type_of};
use c_grammar::productions::TYPE_NAME;
use c_operators::objects::address_row;
use c_results::{Made, Results};
use c_types::term::{Term, TypeId};
use core_nodes::CheckFault;
use core_nodes::reads::{is_place, type_of_node};
use core_nodes::sorts::{is_list, is_scalar, operand_of};
use core_nodes::trees::{add_type, push_leaf, push_over, push_over_two};
use core_nodes::values::value;
use core_tree::node::{NodeKind, Unit};
use pta_base::{Kind, Place};
use std::alloc::Global;
use tree_reads::{Syntax, Test, count_where, first_where, is_a, last_where, place_of, spelling_of};

// Whether a node is a place of a list.
fn is_list_place(unit: &Unit, node: u32) -> bool
    requires ready { IsReady unit.now }
    requires node { node < length unit.now.nodes.items }
    ensures { result ≡ spec.is_list_place (core_at unit.now node) }
{
    is_place(unit, node) && is_list(&unit.types, type_of_node(unit, node))
}

// What is made and given away.
fn dropped(alloc: Global, unit: &mut Unit, place: Place, node: u32) -> Result<u32, CheckFault>
    requires ready { IsReady unit.old }
    requires node { node < length unit.old.nodes.items }
    ensures ready { IsReady unit.new }
    ensures builds { Builds unit.old unit.new }
    ensures within { IfOk result (λ i. i < length unit.new.nodes.items) }
    ensures made { CoreMade unit.new result (Fits (spec.dropped place (core_at unit.old node))) }
{
    let void = add_type(unit, Term::Void)?;
    push_over(alloc, unit, NodeKind::Convert, place, void, node)
}

// A list that gets a value, given away.
fn assigned(alloc: Global, unit: &mut Unit, place: Place, a: u32, v: u32) -> Result<u32, CheckFault>
    requires ready { IsReady unit.old }
    requires list { a < length unit.old.nodes.items }
    requires value { v < length unit.old.nodes.items }
    requires lists { ctype_of (core_at unit.old a) ≡ VaListType }
    ensures ready { IsReady unit.new }
    ensures builds { Builds unit.old unit.new }
    ensures within { IfOk result (λ i. i < length unit.new.nodes.items) }
    ensures made { CoreMade unit.new result
        (Fits (spec.dropped place (over_two Assign place VaListType (core_at unit.old a) (core_at unit.old v)))) }
{
    let ty = type_of_node(unit, a);
    let set = push_over_two(alloc, unit, NodeKind::Assign, place, ty, a, v)?;
    dropped(alloc, unit, place, set)
}

// A list gets what the function was passed past its last parameter.
fn start(
    alloc: Global,
    unit: &mut Unit,
    place: Place,
    at: u32,
    a: u32,
    further: Option<u32>,
) -> Result<u32, CheckFault>
    requires ready { IsReady unit.old }
    requires list { a < length unit.old.nodes.items }
    ensures ready { IsReady unit.new }
    ensures builds { Builds unit.old unit.new }
    ensures within { IfOk result (λ i. i < length unit.new.nodes.items) }
    ensures made { CoreMade unit.new result (spec.start_named place at (core_at unit.old a) further) }
{
    let Some(function) = further else {
        return Err(CheckFault::BadOperand(at));
    };
    if !is_list_place(unit, a) {
        return Err(CheckFault::BadOperand(at));
    }
    let ty = type_of_node(unit, a);
    let given = push_leaf(alloc, unit, NodeKind::VarArgs(function), place, ty)?;
    assigned(alloc, unit, place, a, given)
}

// A list gets the value of another one.
fn copy(
    alloc: Global,
    unit: &mut Unit,
    place: Place,
    at: u32,
    a: u32,
    b: u32,
) -> Result<u32, CheckFault>
    requires ready { IsReady unit.old }
    requires list { a < length unit.old.nodes.items }
    requires other { b < length unit.old.nodes.items }
    ensures ready { IsReady unit.new }
    ensures builds { Builds unit.old unit.new }
    ensures within { IfOk result (λ i. i < length unit.new.nodes.items) }
    ensures made { (w : World) →
        Knows w unit.old → CoreMade unit.new result (spec.copy_row w place at (core_at unit.old a) (core_at unit.old b)) }
{
    if !is_list_place(unit, a) {
        return Err(CheckFault::BadOperand(at));
    }
    let v = value(alloc, unit, at, b)?;
    if !is_list(&unit.types, type_of_node(unit, v)) {
        return Err(CheckFault::BadOperand(at));
    }
    assigned(alloc, unit, place, a, v)
}

// The next argument of a list, which isn't of a floating type.
fn taken(
    alloc: Global,
    unit: &mut Unit,
    place: Place,
    at: u32,
    a: u32,
    ty: TypeId,
) -> Result<u32, CheckFault>
    requires ready { IsReady unit.old }
    requires list { a < length unit.old.nodes.items }
    requires ty { ty.0 < length unit.old.types.terms }
    ensures ready { IsReady unit.new }
    ensures builds { Builds unit.old unit.new }
    ensures within { IfOk result (λ i. i < length unit.new.nodes.items) }
    ensures made { CoreMade unit.new result
        (given_if
        (spec.is_list_place (core_at unit.old a) && conversions.is_scalar (conversions.operand_of (type_of unit.old.types ty.0)))
        Operand at (Fits (over NextArg place (type_of unit.old.types ty.0) (core_at unit.old a)))) }
{
    if !is_list_place(unit, a) || !is_scalar(&unit.types, operand_of(&unit.types, ty)) {
        return Err(CheckFault::BadOperand(at));
    }
    push_over(alloc, unit, NodeKind::NextArg, place, ty, a)
}

// The next argument of a list.
fn next(
    alloc: Global,
    unit: &mut Unit,
    place: Place,
    at: u32,
    a: u32,
    ty: TypeId,
) -> Result<u32, CheckFault>
    requires ready { IsReady unit.old }
    requires list { a < length unit.old.nodes.items }
    requires ty { ty.0 < length unit.old.types.terms }
    ensures ready { IsReady unit.new }
    ensures builds { Builds unit.old unit.new }
    ensures within { IfOk result (λ i. i < length unit.new.nodes.items) }
    ensures made { CoreMade unit.new result (spec.next_row place at (core_at unit.old a) (type_of unit.old.types ty.0)) }
{
    match unit.types.term(ty) {
        Term::Floating => Err(CheckFault::Unsupported(Kind::Floating, at)),
        _ => taken(alloc, unit, place, at, a, ty),
    }
}

// A list that isn't asked any more.
fn end(alloc: Global, unit: &mut Unit, place: Place, at: u32, a: u32) -> Result<u32, CheckFault>
    requires ready { IsReady unit.old }
    requires list { a < length unit.old.nodes.items }
    ensures ready { IsReady unit.new }
    ensures builds { Builds unit.old unit.new }
    ensures within { IfOk result (λ i. i < length unit.new.nodes.items) }
    ensures made { (w : World) → Knows w unit.old → CoreMade unit.new result (spec.end_row w place at (core_at unit.old a)) }
{
    if !is_list_place(unit, a) {
        return Err(CheckFault::BadOperand(at));
    }
    let address = address_row(alloc, unit, place, at, a)?;
    dropped(alloc, unit, place, address)
}

// The leaf of a kind that is a name, where nothing stands under it.
fn leaf_of(kind: &NodeKind, alone: bool) -> Option<u32>
    ensures { result ≡ lone_leaf kind.now alone }
{
    match kind {
        NodeKind::Named(leaf) => { if alone { Some(*leaf) } else { None } }
        _ => None,
    }
}

/// The leaf of the name that a node is.
pub fn name_of(unit: &Unit, node: u32) -> Option<u32>
    requires ready { IsReady unit.now }
    requires node { node < length unit.now.nodes.items }
    ensures { result ≡ named_leaf (core_at unit.now node) }
{
    let there = &unit.nodes[node as usize];
    let alone = there.children.as_slice().is_empty();
    leaf_of(&there.kind, alone)
}

// A list gets what the function was passed past the parameter that a node names.
fn start_by(
    alloc: Global,
    unit: &mut Unit,
    place: Place,
    at: u32,
    a: u32,
    n: u32,
    further: Option<u32>,
) -> Result<u32, CheckFault>
    requires ready { IsReady unit.old }
    requires list { a < length unit.old.nodes.items }
    requires name { n < length unit.old.nodes.items }
    ensures ready { IsReady unit.new }
    ensures builds { Builds unit.old unit.new }
    ensures within { IfOk result (λ i. i < length unit.new.nodes.items) }
    ensures made { (w : World) →
        LeafFits w (named_leaf (core_at unit.old n)) further →
        CoreMade unit.new result (spec.start_row w place at (core_at unit.old a) (core_at unit.old n)) }
{
    match name_of(unit, n) {
        Some(_) => start(alloc, unit, place, at, a, further),
        None => Err(CheckFault::BadOperand(at)),
    }
}

// A list that isn't asked any more, over its part.
fn ended(
    alloc: Global,
    unit: &mut Unit,
    results: &Results,
    place: Place,
    at: u32,
    part: u32,
) -> Result<u32, CheckFault>
    requires ready { IsReady unit.old }
    requires results { All (IsWithin unit.old) results.now }
    ensures ready { IsReady unit.new }
    ensures builds { Builds unit.old unit.new }
    ensures within { IfOk result (λ i. i < length unit.new.nodes.items) }
    ensures made { (w : World) →
        Knows w unit.old →
        let sense = sense_in (senses_made unit.old results.now) in
        CoreMade unit.new result (ended_core w place at (sense part)) }
{
    match core_of(unit, results, at, part) {
        Ok(a) => end(alloc, unit, place, at, a),
        Err(fault) => Err(fault),
    }
}

// The next argument of a list, over the list's part and that of the type.
fn next_of(
    alloc: Global,
    unit: &mut Unit,
    results: &Results,
    place: Place,
    at: u32,
    part: u32,
    named: u32,
) -> Result<u32, CheckFault>
    requires ready { IsReady unit.old }
    requires results { All (IsWithin unit.old) results.now }
    ensures ready { IsReady unit.new }
    ensures builds { Builds unit.old unit.new }
    ensures within { IfOk result (λ i. i < length unit.new.nodes.items) }
    ensures made { let sense = sense_in (senses_made unit.old results.now) in
        CoreMade unit.new result (next_core place at (sense part) (sense named)) }
{
    let a = match core_of(unit, results, at, part) {
        Ok(node) => node,
        Err(fault) => return Err(fault),
    };
    match type_of(unit, results, at, named) {
        Ok(ty) => next(alloc, unit, place, at, a, ty),
        Err(fault) => Err(fault),
    }
}

// A list gets the value of another one, over their parts.
fn copied(
    alloc: Global,
    unit: &mut Unit,
    results: &Results,
    place: Place,
    at: u32,
    part: u32,
    other: u32,
) -> Result<u32, CheckFault>
    requires ready { IsReady unit.old }
    requires results { All (IsWithin unit.old) results.now }
    ensures ready { IsReady unit.new }
    ensures builds { Builds unit.old unit.new }
    ensures within { IfOk result (λ i. i < length unit.new.nodes.items) }
    ensures made { (w : World) →
        Knows w unit.old →
        let sense = sense_in (senses_made unit.old results.now) in
        CoreMade unit.new result (copied_core w place at (sense part) (sense other)) }
{
    let a = match core_of(unit, results, at, part) {
        Ok(node) => node,
        Err(fault) => return Err(fault),
    };
    match core_of(unit, results, at, other) {
        Ok(b) => copy(alloc, unit, place, at, a, b),
        Err(fault) => Err(fault),
    }
}

// A list gets what the function was passed past its last parameter, over the list's part and that of the parameter's name.
#[tactic(auto, using(crate::proofs::c_rows::Inner::names_last))]
fn started(
    alloc: Global,
    unit: &mut Unit,
    results: &Results,
    place: Place,
    at: u32,
    part: u32,
    other: u32,
    further: Option<u32>,
) -> Result<u32, CheckFault>
    requires ready { IsReady unit.old }
    requires results { All (IsWithin unit.old) results.now }
    ensures ready { IsReady unit.new }
    ensures builds { Builds unit.old unit.new }
    ensures within { IfOk result (λ i. i < length unit.new.nodes.items) }
    ensures made { (w : World) →
        let sense = sense_in (senses_made unit.old results.now) in
        NamesLast w (sense other) further →
        CoreMade unit.new result (started_core w place at (sense part) (sense other)) }
{
    let a = match core_of(unit, results, at, part) {
        Ok(node) => node,
        Err(fault) => return Err(fault),
    };
    match core_of(unit, results, at, other) {
        Ok(n) => start_by(alloc, unit, place, at, a, n, further),
        Err(fault) => Err(fault),
    }
}

// Whether a leaf names the operation that copies a list.
fn is_copy(syntax: &Syntax, first: u32) -> bool
    ensures { result ≡ bytes_eq (spelling_at (source_read syntax.now) first) (codes "__builtin_va_copy") }
{
    spelling_of(syntax, first) == b"__builtin_va_copy".as_slice()
}

/// The parts of an operation on variadic lists: where there is one, the list; else the list and what else it needs.
#[derive(Clone, Copy, Debug, PartialEq, Eq)]
pub enum ListParts {
    One(u32),
    Two(u32, u32),
    Other,
}

// The parts of a list of so many nodes, by its first and its last one.
fn told_apart(count: usize, a: u32, b: u32) -> ListParts
    ensures { (parts : List ℕ) →
        length parts ≡ count → first_in parts ≡ Some a → unwrap_or (last_in parts) a ≡ b → result ≡ parts_seen parts }
{
    if count == 1 {
        return ListParts::One(a);
    }
    if count == 2 {
        return ListParts::Two(a, b);
    }
    ListParts::Other
}

// The last one of some nodes that is no leaf, else another node.
fn last_inner(syntax: &Syntax, children: &[u32], other: u32) -> u32
    ensures { result ≡ unwrap_or (last_where (λ c. not (is_leaf (source_read syntax.now) c)) children.now) other }
{
    match last_where(syntax, Test::Inner, children) {
        Some(last) => last,
        None => other,
    }
}

/// The parts of an operation on variadic lists, where they are one or two: of the nodes behind its name those that aren't leaves.
pub fn list_parts(syntax: &Syntax, children: &[u32]) -> ListParts
    ensures { result ≡ parts_seen (all_where (λ c. not (is_leaf (source_read syntax.now) c)) children.now) }
{
    let count = count_where(syntax, Test::Inner, children);
    match first_where(syntax, Test::Inner, children) {
        Some(a) => told_apart(count, a, last_inner(syntax, children, a)),
        None => ListParts::Other,
    }
}

// An operation on variadic lists over its two parts.
fn list_two(
    alloc: Global,
    unit: &mut Unit,
    syntax: &Syntax,
    results: &Results,
    at: u32,
    first: u32,
    pair: (u32, u32),
    further: Option<u32>,
) -> Result<u32, CheckFault>
    requires ready { IsReady unit.old }
    requires results { All (IsWithin unit.old) results.now }
    ensures ready { IsReady unit.new }
    ensures builds { Builds unit.old unit.new }
    ensures within { IfOk result (λ i. i < length unit.new.nodes.items) }
    ensures made { (w : World) →
        let s = source_read syntax.now in
        let sense = sense_in (senses_made unit.old results.now) in
        Knows w unit.old → NamesLast w (sense pair.1) further →
        CoreMade unit.new result
        (expressions.list_core w s sense at (place_at s first) (spelling_at s first) (pair.0 ∷ pair.1 ∷ [])) }
{
    let place = place_of(syntax, first);
    if is_a(syntax, TYPE_NAME, pair.1) {
        return next_of(alloc, unit, results, place, at, pair.0, pair.1);
    }
    if is_copy(syntax, first) {
        return copied(alloc, unit, results, place, at, pair.0, pair.1);
    }
    started(alloc, unit, results, place, at, pair.0, pair.1, further)
}

// An operation on variadic lists over its parts.
fn list_node(
    alloc: Global,
    unit: &mut Unit,
    syntax: &Syntax,
    results: &Results,
    at: u32,
    first: u32,
    parts: ListParts,
    further: Option<u32>,
) -> Result<u32, CheckFault>
    requires ready { IsReady unit.old }
    requires results { All (IsWithin unit.old) results.now }
    ensures ready { IsReady unit.new }
    ensures builds { Builds unit.old unit.new }
    ensures within { IfOk result (λ i. i < length unit.new.nodes.items) }
    ensures made { (w : World) (inner : List ℕ) →
        let s = source_read syntax.now in
        let sense = sense_in (senses_made unit.old results.now) in
        Knows w unit.old → parts_seen inner ≡ parts → SecondFits w sense inner further →
        CoreMade unit.new result (expressions.list_core w s sense at (place_at s first) (spelling_at s first) inner) }
{
    let place = place_of(syntax, first);
    match parts {
        ListParts::One(part) => ended(alloc, unit, results, place, at, part),
        ListParts::Two(part, other) => list_two(
            alloc,
            unit,
            syntax,
            results,
            at,
            first,
            (part, other),
            further,
        ),
        ListParts::Other => Err(CheckFault::BadOperand(at)),
    }
}

/// The row of an operation on variadic lists (C11 7.16.1), by its name and the children behind it: `__builtin_va_end` over a list,
/// `__builtin_va_arg` over a list and a type, `__builtin_va_copy` over two lists, and `__builtin_va_start` over a list and the name of the
/// last parameter of the variadic function around it, whose entity `further` is. A list is a place of that type. A next argument of
/// floating type is `Floating`; every other misfit is `BadOperand`.
pub fn list_row(
    alloc: Global,
    unit: &mut Unit,
    syntax: &Syntax,
    results: &Results,
    at: u32,
    first: u32,
    rest: &[u32],
    further: Option<u32>,
) -> Result<Made, CheckFault>
    requires ready { IsReady unit.old }
    requires results { All (IsWithin unit.old) results.now }
    ensures ready { IsReady unit.new }
    ensures builds { Builds unit.old unit.new }
    ensures within { IfOk result (IsWithin unit.new) }
    ensures row { (w : World) →
        let s = source_read syntax.now in
        let sense = sense_in (senses_made unit.old results.now) in
        Knows w unit.old → FurtherFits w s sense rest.now further →
        Rowed unit.new result (expressions.list_row w s sense at first rest.now) }
{
    let parts = list_parts(syntax, rest);
    sensed(list_node(alloc, unit, syntax, results, at, first, parts, further))
}

// The numbers of functions and rows.

ghost use Rattle.std.specs.Prelude.{◌≡◌, ℕ, ◌+◌, ◌*◌, ◌<◌, ◌≤◌, ◌^◌, List, IfOk, IfSome, All, length, map, take, sum};
ghost use Rattle.std.specs.Prelude.{slice_get, if◌then◌else◌};
ghost use Rattle.std.specs.Option.{option_map};
ghost use Rattle.std.specs.List.{filter_map, range_with_len};
ghost use Rattle.c_types.specs.Table.{type_of};
ghost use Rattle.c_types.specs.declared.key.ObjectKey.{ObjectKey};
ghost use Rattle.type_rules.specs.Conversions.{result_of};
ghost use Rattle.core_tree.specs.declared.node.Node.{Node};
ghost use Rattle.core_tree.specs.Typed.{trees_in, sort_of, type_at};
ghost use Rattle.core_tree.specs.Range.{InRange};
ghost use Rattle.row_numbers.specs.Kept.{nodes_of, kept_count};
ghost use Rattle.row_numbers.specs.Functions.{key_id, type_or_void};
ghost use Rattle.row_numbers.specs.Setting.{width_by, width, own_width, widths, result_nodes, start_at, lead, trail};
ghost use Rattle.row_numbers.specs.Setting.{calls_further, takes_further, row};
ghost use Rattle.row_numbers.specs.Numbering.{present_before, own_row};

use crate::kept::kept_count;
use crate::objects::library_id;
use c_types::key::ObjectKey;
use c_types::table::TypeTable;
use c_types::term::{Term, TypeId};
use core_tree::kinds::{is_place_kind, is_value_kind};
use core_tree::{Entity, Node, NodeKind, Program};
use pta_base::OutOfMemory;
use std::alloc::Global;
use type_rules::kinds::is_variadic;

// The declared type of an entity.
fn entity_id(entities: &[Entity], e: usize) -> Option<TypeId>
    ensures value { result ≡ option_map (λ entity. entity.ty) (slice_get entities.now e) }
    ensures known { (n : ℕ) → All (λ entity. entity.ty.0 < n) entities.now → IfSome result (λ id. id.0 < n) }
{
    if e < entities.len() {
        Some(entities[e].ty)
    } else {
        None
    }
}

/// The declared type of a function or a parameter.
pub fn key_id(program: &Program, key: ObjectKey) -> Option<TypeId>
    requires { All (λ entity. entity.ty.0 < length program.now.types.terms) program.now.entities.items }
    ensures value { result ≡ key_id (trees_in program.now) key }
    ensures known { IfSome result (λ id. id.0 < length program.now.types.terms) }
{
    match key {
        ObjectKey::Entity(e) => entity_id(program.entities.as_slice(), e as usize),
        ObjectKey::Function(k) => library_id(k, program.entities.as_slice()),
        ObjectKey::Text(_) | ObjectKey::Call(_) => None,
        ObjectKey::Library(_) | ObjectKey::Star(_) => None,
        ObjectKey::Varargs(_) | ObjectKey::Outside => None,
    }
}

/// What a function of that type gives.
pub fn result_id(types: &TypeTable, id: Option<TypeId>) -> Option<TypeId>
    requires { IfSome id (λ id. id.0 < length types.now.terms) }
    ensures value { type_or_void types.now result ≡ result_of (type_or_void types.now id) }
    ensures known { IfSome result (λ id. id.0 < length types.now.terms) }
{
    match types.term(id?) {
        Term::Function { result, .. } => Some(*result),
        _ => None,
    }
}

/// Whether a type is that of a function that takes arguments past its parameters.
pub fn takes_further(types: &TypeTable, id: TypeId) -> bool
    requires { id.0 < length types.now.terms }
    ensures { result ≡ takes_further (type_of types.now id.0) }
{
    is_variadic(types, id)
}

/// Whether a type is a pointer to a function that takes arguments past its parameters.
pub fn calls_further(types: &TypeTable, id: TypeId) -> bool
    requires { id.0 < length types.now.terms }
    ensures { result ≡ calls_further (type_of types.now id.0) }
{
    match types.term(id) {
        Term::Pointer(to) => takes_further(types, *to),
        _ => false,
    }
}

/// How many rows a node has before its own.
pub fn lead(kind: &NodeKind) -> u32
    ensures value { result ≡ lead kind.now }
    ensures within { result ≤ 1 }
{
    match kind {
        NodeKind::NextArg => 1,
        _ => 0,
    }
}

// How many rows a node has behind its own.
fn trail(program: &Program, node: &Node) -> u32
    requires { All (λ node. node.ty.0 < length program.now.types.terms) program.now.nodes.items }
    ensures value { result ≡ trail (trees_in program.now) node.now.kind node.now.children }
    ensures within { result ≤ 1 }
{
    match &node.kind {
        NodeKind::CallNode => match node.children.as_slice() {
            [c, ..] => one_if(calls_at(program, *c)),
            [] => 0,
        },
        _ => 0,
    }
}

// Whether a node is a pointer to a function that takes arguments past its parameters.
fn calls_at(program: &Program, n: u32) -> bool
    requires { All (λ node. node.ty.0 < length program.now.types.terms) program.now.nodes.items }
    ensures { result ≡ calls_further (type_at (trees_in program.now) n) }
{
    match program.nodes.get(n as usize) {
        Some(node) => calls_further(&program.types, node.ty),
        None => false,
    }
}

// How many rows of its own a node has.
fn own_width(types: &TypeTable, node: &Node) -> u32
    requires { node.now.ty.0 < length types.now.terms }
    ensures value { result ≡ own_width types.now node.now }
    ensures within { result ≤ 2 ^ 24 }
{
    if is_place_kind(&node.kind) {
        1
    } else if is_value_kind(&node.kind) {
        kept_count(types, node.ty)
    } else {
        0
    }
}

/// How many rows a node has.
fn width(program: &Program, node: &Node) -> u32
    requires types { All (λ node. node.ty.0 < length program.now.types.terms) program.now.nodes.items }
    requires ty { node.now.ty.0 < length program.now.types.terms }
    ensures { result ≡ width (trees_in program.now) node.now }
{
    lead(&node.kind) + own_width(&program.types, node) + trail(program, node)
}

/// How many rows each node has.
pub fn widths(alloc: Global, program: &Program) -> Result<Vec<u32>, OutOfMemory>
    requires { All (λ node. node.ty.0 < length program.now.types.terms) program.now.nodes.items }
    ensures { IfOk result (λ list. list.items ≡ widths (trees_in program.now)) }
{
    let nodes = program.nodes.as_slice();
    let list = nodes
        .iter()
        .map(|node| width(program, node))
        .collect(alloc)?;
    Ok(list)
}

/// The first row of each node's own, where the rows of each begin there.
pub fn own_rows(alloc: Global, nodes: &[Node], starts: &[u32]) -> Result<Vec<u32>, OutOfMemory>
    requires each { length starts.now ≡ length nodes.now }
    requires small { All (λ start. start ≤ 2 ^ 24) starts.now }
    ensures { IfOk result (λ list. list.items ≡ map (own_row nodes.now starts.now) (range_with_len 0 (length nodes.now))) }
{
    let mut list = Vec::new(alloc);
    for (n, node) in nodes.iter().enumerate() {
        list.push(starts[n] + lead(&node.kind))?;
    }
    Ok(list)
}

/// The sum of numbers.
pub fn total(numbers: &[u32]) -> u64
    requires few { length numbers.now < 2 ^ 32 }
    requires small { All (λ number. number ≤ 2 ^ 24 + 2) numbers.now }
    ensures sum { result ≡ sum numbers.now }
    ensures within { result ≤ (2 ^ 24 + 2) * 2 ^ 32 }
{
    let mut all: u64 = 0;
    for number in numbers {
        all += u64::from(*number);
    }
    all
}

/// Where the rows of each begin that has a number of rows.
pub fn starts(alloc: Global, first: u32, widths: &[u32]) -> Result<Vec<u32>, OutOfMemory>
    requires { first + sum widths.now ≤ 2 ^ 24 }
    ensures { IfOk result (λ list. list.items ≡ map (start_at first widths.now) (range_with_len 0 (length widths.now))) }
{
    let mut list = Vec::new(alloc);
    let mut next = first;
    for width in widths {
        list.push(next)?;
        next += *width;
    }
    Ok(list)
}

/// How many are there before each place.
pub fn present_before(alloc: Global, at: &[Option<ObjectKey>]) -> Result<Vec<u32>, OutOfMemory>
    requires { length at.now < 2 ^ 32 }
    ensures { IfOk result (λ list. list.items ≡ map (present_before at.now) (range_with_len 0 (length at.now))) }
{
    let mut list = Vec::new(alloc);
    let mut count: u32 = 0;
    for found in at {
        list.push(count)?;
        count += one_if(found.is_some());
    }
    Ok(list)
}

// How many rows the result of a function has.
fn result_width(program: &Program, key: ObjectKey) -> u32
    requires { All (λ entity. entity.ty.0 < length program.now.types.terms) program.now.entities.items }
    ensures { result ≡ kept_count (result_nodes (trees_in program.now) key) }
{
    match result_id(&program.types, key_id(program, key)) {
        Some(id) => kept_count(&program.types, id),
        None => 0,
    }
}

/// How many rows the result of each function has.
pub fn result_widths(
    alloc: Global,
    program: &Program,
    functions: &[ObjectKey],
) -> Result<Vec<u32>, OutOfMemory>
    requires { All (λ entity. entity.ty.0 < length program.now.types.terms) program.now.entities.items }
    ensures { IfOk result (λ list. list.items ≡ map (λ key. kept_count (result_nodes (trees_in program.now) key)) functions.now) }
{
    let list = functions
        .iter()
        .map(|key| result_width(program, *key))
        .collect(alloc)?;
    Ok(list)
}

// 1 for true.
fn one_if(condition: bool) -> u32
    ensures { result ≡ (if condition then 1 else 0) }
{
    if condition { 1 } else { 0 }
}

// The values of the initialisers of static objects, which are fixed before the program starts (C11 6.6, 6.7.9p4).

ghost use Rattle.std.specs.Prelude.{◌≡◌, ◌<◌, Some, None, IfOk, MatchOption, length, slice_get};
ghost use Rattle.std.specs.Option.{option_and_then, option_map};
ghost use Rattle.core_tree.specs.declared.node.Node.{Node};
ghost use Rattle.core_tree.specs.Range.{InRange};
ghost use Rattle.core_tree.specs.Seen.{core_of};
ghost use Rattle.ref_cells.specs.Places.{AreKnown};
ghost use Rattle.ref_start.specs.Start.{cells_by};
ghost use Rattle.ref_start.specs.Standing.{AreFirst};
ghost use Rattle.ref_start.specs.Fixed.{way_of, Keeps, all_fixed, kept_by, branch_by, chosen_by, value_over, fixed};
ghost use Rattle.ref_start.specs.Fixed.{value_at, static_body, static_bodies, PartsGiven, BodiesGiven};

use crate::standing::{Standing, first_named, place_value};
use c_types::term::{OutOfMemory, Term};
use core_tree::trees::Trees;
use core_tree::{Entity, Node, NodeKind, Storage};
use ref_cells::cells::{Cell, Cells, MemFault, Value};
use ref_mem::memory::Memory;
use ref_state::lists::push;
use ref_state::values::cell_of;
use ref_values::values::{computed, is_true};
use std::alloc::Global;
use unit_finish::unit_parts::marks_under;

/// How a node makes a fixed value: from its operands' values; without them; as its operand's value; as the value of one of
/// two; or never.
#[derive(Clone, Copy)]
pub enum Way {
    Computed,
    Alone,
    Kept,
    Chosen,
    Never,
}

/// The initialiser of a static object.
pub fn static_body(entity: &Entity) -> Option<u32>
    ensures { result ≡ static_body entity.now }
{
    match entity.storage {
        Storage::Static => entity.body,
        Storage::Automatic | Storage::FunctionBody => None,
        Storage::Parameter | Storage::Declared => None,
    }
}

// The initialisers of all static objects.
fn static_bodies(alloc: Global, entities: &[Entity]) -> Result<Vec<u32>, OutOfMemory>
    ensures { IfOk result (λ list. list.items ≡ static_bodies entities.now) }
{
    let mut list = Vec::new(alloc);
    for entity in entities {
        if let Some(body) = static_body(entity) {
            push(&mut list, body)?;
        }
    }
    Ok(list)
}

// How a node makes a fixed value.
fn way_of(trees: &Trees<'_>, node: &Node) -> Way
    requires { node.now.ty.0 < length trees.now.types.now.terms }
    ensures { result ≡ way_of node.now.kind (slice_get trees.now.types.now.terms node.now.ty.0) }
{
    match &node.kind {
        NodeKind::Named(_) | NodeKind::Text(_) | NodeKind::FunctionName(_) => Way::Computed,
        NodeKind::Deref | NodeKind::Member(_) | NodeKind::Number(_) => Way::Computed,
        NodeKind::NullValue | NodeKind::AddressOf | NodeKind::Decay => Way::Computed,
        NodeKind::PointerAdd { .. } | NodeKind::Upcast | NodeKind::Arith(_) => Way::Computed,
        NodeKind::Convert => match trees.types.term(node.ty) {
            Term::Pointer(_) => Way::Kept,
            _ => Way::Computed,
        },
        NodeKind::Literal(_) => Way::Alone,
        NodeKind::Choose => Way::Chosen,
        _ => Way::Never,
    }
}

// A table's value of a node, none behind its end.
fn value_at(table: &[Option<Value>], n: u32) -> Option<&Value>
    ensures { MatchOption result (value_at table.now n ≡ None) (λ value. value_at table.now n ≡ Some value.now) }
{
    if n as usize >= table.len() {
        return None;
    }
    match &table[n as usize] {
        Some(value) => Some(value),
        None => None,
    }
}

// A table's value of a node, once more.
fn again(alloc: Global, table: &[Option<Value>], n: u32) -> Result<Option<Value>, OutOfMemory>
    ensures { IfOk result (λ o. o ≡ value_at table.now n) }
{
    match value_at(table, n) {
        Some(value) => Ok(Some(value.copy(alloc)?)),
        None => Ok(None),
    }
}

// The value of an operand that stays as it is.
fn kept_by(
    alloc: Global,
    table: &[Option<Value>],
    children: &[u32],
) -> Result<Option<Value>, OutOfMemory>
    ensures { IfOk result (λ o. o ≡ kept_by (value_at table.now) children.now) }
{
    match children {
        [v] => again(alloc, table, *v),
        _ => Ok(None),
    }
}

// The branch that a condition takes, none where it isn't a scalar that has a value.
fn branch_of(table: &[Option<Value>], c: u32, a: u32, b: u32) -> Option<u32>
    ensures { option_and_then (value_at table.now) result ≡ branch_by (value_at table.now) a b (value_at table.now c) }
{
    let condition = value_at(table, c)?;
    let cell = cell_of(condition)?;
    match is_true(cell) {
        Ok(true) => Some(a),
        Ok(false) => Some(b),
        Err(_) => None,
    }
}

// What a Choose gives: the value of its branch.
fn chosen_by(
    alloc: Global,
    table: &[Option<Value>],
    children: &[u32],
) -> Result<Option<Value>, OutOfMemory>
    ensures { IfOk result (λ o. o ≡ chosen_by (value_at table.now) children.now) }
{
    match children {
        [c, a, b] => match branch_of(table, *c, *a, *b) {
            Some(branch) => again(alloc, table, branch),
            None => Ok(None),
        },
        _ => Ok(None),
    }
}

// The values of operands; none where one of them has none.
fn all_fixed(
    alloc: Global,
    table: &[Option<Value>],
    children: &[u32],
) -> Result<Option<Vec<(u32, Value)>>, OutOfMemory>
    ensures { IfOk result (λ o. option_map (λ values. values.items) o ≡ all_fixed (value_at table.now) children.now) }
{
    let mut values = Vec::new(alloc);
    for c in children {
        match again(alloc, table, *c)? {
            Some(value) => push(&mut values, (*c, value))?,
            None => return Ok(None),
        }
    }
    Ok(Some(values))
}

// What a node computes from these values, none where it stops. The memory stays.
fn value_over(
    alloc: Global,
    trees: &Trees<'_>,
    memory: &mut Memory,
    n: u32,
    values: &[(u32, Value)],
) -> Result<Option<Value>, OutOfMemory>
    requires range { InRange (core_of trees.now) }
    requires memory { AreKnown (length trees.now.types.now.terms) memory.old }
    requires node { n < length trees.now.nodes.now }
    requires keeps { (node : Node) → slice_get trees.now.nodes.now n ≡ Some node →
        Keeps (way_of node.kind (slice_get trees.now.types.now.terms node.ty.0)) }
    ensures value { (node : Node) → slice_get trees.now.nodes.now n ≡ Some node →
        IfOk result (λ o. o ≡ value_over (core_of trees.now) memory.old n node values.now) }
    ensures memory { memory.new ≡ memory.old }
{
    match computed(alloc, trees, memory, &[], n, values, 0) {
        Ok(outcome) => Ok(Some(outcome.value)),
        Err(MemFault::Stop(_)) => Ok(None),
        Err(MemFault::OutOfMemory) => Err(OutOfMemory),
    }
}

// A node's value, from what its operands' values are. The memory stays.
fn value_of(
    alloc: Global,
    trees: &Trees<'_>,
    memory: &mut Memory,
    table: &[Option<Value>],
    n: u32,
) -> Result<Option<Value>, OutOfMemory>
    requires range { InRange (core_of trees.now) }
    requires memory { AreKnown (length trees.now.types.now.terms) memory.old }
    requires node { n < length trees.now.nodes.now }
    requires table { PartsGiven (core_of trees.now) memory.old table.now n }
    ensures value { IfOk result (λ o. o ≡ fixed (core_of trees.now) memory.old n) }
    ensures memory { memory.new ≡ memory.old }
{
    let node = &trees.nodes[n as usize];
    let children = node.children.as_slice();
    match way_of(trees, node) {
        Way::Computed => match all_fixed(alloc, table, children)? {
            Some(values) => value_over(alloc, trees, memory, n, values.as_slice()),
            None => Ok(None),
        },
        Way::Alone => value_over(alloc, trees, memory, n, &[]),
        Way::Kept => kept_by(alloc, table, children),
        Way::Chosen => chosen_by(alloc, table, children),
        Way::Never => Ok(None),
    }
}

// A node's value: that of a name by its object's first instance, any other from what its operands' values are. The memory stays.
fn value_by(
    alloc: Global,
    trees: &Trees<'_>,
    standing: &Standing,
    memory: &mut Memory,
    table: &[Option<Value>],
    n: u32,
) -> Result<Option<Value>, OutOfMemory>
    requires range { InRange (core_of trees.now) }
    requires memory { AreKnown (length trees.now.types.now.terms) memory.old }
    requires standing { AreFirst standing.now memory.old }
    requires node { n < length trees.now.nodes.now }
    requires table { PartsGiven (core_of trees.now) memory.old table.now n }
    ensures value { IfOk result (λ o. o ≡ fixed (core_of trees.now) memory.old n) }
    ensures memory { memory.new ≡ memory.old }
{
    match first_named(trees, standing, n) {
        Some(i) => Ok(Some(place_value(alloc, i)?)),
        None => value_of(alloc, trees, memory, table, n),
    }
}

/// The values that static objects are initialised with, over the objects before any initialiser, by node: those of all nodes
/// under such an initialiser are there. The memory stays.
pub fn fixed_values(
    alloc: Global,
    trees: &Trees<'_>,
    standing: &Standing,
    memory: &mut Memory,
) -> Result<Vec<Option<Value>>, OutOfMemory>
    requires range { InRange (core_of trees.now) }
    requires memory { AreKnown (length trees.now.types.now.terms) memory.old }
    requires standing { AreFirst standing.now memory.old }
    ensures table { IfOk result (λ table. BodiesGiven (core_of trees.now) memory.old table.items) }
    ensures memory { memory.new ≡ memory.old }
{
    let bodies = static_bodies(alloc, trees.entities)?;
    let marks = marks_under(alloc, trees.nodes, bodies.as_slice())?;
    if marks.len() > u32::MAX as usize {
        return Err(OutOfMemory);
    }
    let mut table = Vec::new(alloc);
    for n in 0..marks.len() {
        if marks[n] {
            let value = value_by(alloc, trees, standing, memory, table.as_slice(), n as u32)?;
            push(&mut table, value)?;
        } else {
            push(&mut table, None)?;
        }
    }
    Ok(table)
}

/// The cells of a node's value in a table: one that is unset where it has none.
pub fn cells_by(alloc: Global, table: &[Option<Value>], n: u32) -> Result<Cells, OutOfMemory>
    ensures { IfOk result (λ cells. cells ≡ cells_by (value_at table.now n)) }
{
    match value_at(table, n) {
        Some(value) => value.cells.copy(alloc),
        None => Cells::one(alloc, Cell::Unset),
    }
}

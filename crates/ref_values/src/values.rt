// What each kind of expression computes from its operands' values.

ghost use Rattle.std.specs.Prelude.{◌≡◌, ◌<◌, ◌&&◌, Some, [], IfOk, IfSome, OnErr, All, length, slice_get};
ghost use Rattle.core_tree.specs.declared.node.Node.{Node};
ghost use Rattle.c_types.specs.Table.{type_of};
ghost use Rattle.core_tree.specs.Seen.{core_of};
ghost use Rattle.core_tree.specs.Range.{InRange};
ghost use Rattle.ref_cells.specs.Answers.{Gives, Agrees};
ghost use Rattle.ref_cells.specs.Places.{AreKnown};
ghost use Rattle.core_tree.specs.Rows.{place_bits};
ghost use Rattle.ref_values.specs.Numbers.{over_two};
ghost use Rattle.core_tree.specs.Typed.{type_at};
ghost use Rattle.ref_mem.specs.Reads.{one_cell};
ghost use Rattle.ref_state.specs.Values.{cell_in};
ghost use Rattle.ref_elements.specs.declared.outcome.Next.TheVariants.{Done};
ghost use Rattle.ref_values.specs.Values.{is_true, one_row, two_row, lacks_one, lacks, uses_all, one_of, two_of};
ghost use Rattle.ref_values.specs.Values.{gives_cell, deref_computed, member_computed, cell_computed, one_computed};
ghost use Rattle.ref_values.specs.Values.{two_computed, value_computed, computed_by, computed};

use crate::memory::{
    Update, assign_row, convert_row, fetch_row, is_missing, member_of_value_row, pointer_moved,
    update_row,
};
use crate::numbers::{Numbers, over_one, over_two};
use c_types::key::ObjectKey;
use c_types::table::TypeTable;
use c_types::term::{OutOfMemory, Term, TypeId};
use core_tree::trees::Trees;
use core_tree::{Node, NodeKind, Op};
use ref_cells::cells::{Cell, MemFault, Reason, Value};
use ref_elements::outcome::{LibOutcome, gives};
use ref_mem::memory::Memory;
use ref_places::places::{decay_row, deref_row, member_row, named_row, upcast_row, varargs_row};
use ref_places::pointers::compared;
use ref_state::values::{cell_in, value_in};
use row_numbers::objects::entity_key;
use std::alloc::Global;
use type_rules::members::member_width;

// A value that is one cell.
fn cell_given(alloc: Global, cell: Cell) -> Result<LibOutcome, OutOfMemory>
    ensures { IfOk result (λ outcome. outcome ≡ record { value = one_cell cell; stores = []; next = Done }) }
{
    let value = Value::one(alloc, cell)?;
    Ok(gives(alloc, value))
}

/// A scalar as a condition.
pub fn is_true(cell: &Cell) -> Result<bool, Reason>
    ensures { Agrees (λ b. b) result (is_true cell.now) }
{
    match cell {
        Cell::Number(n) => Ok(*n != 0),
        Cell::Null => Ok(false),
        Cell::Pointer { .. } | Cell::Function(_) => Ok(true),
        Cell::Unset => Err(Reason::Unset),
    }
}

// An operator over one value.
fn one_row(types: &TypeTable, op: Op, ty: TypeId, cell: &Cell) -> Result<i128, Reason>
    requires { ty.0 < length types.now.terms }
    ensures { Agrees (λ n. n) result (one_row op (type_of types.now ty.0) cell.now) }
{
    if let Op::Not = op {
        return if is_true(cell)? { Ok(0) } else { Ok(1) };
    }
    match cell {
        Cell::Number(n) => match types.term(ty) {
            Term::Integer { size, rank, signed } => over_one(
                op,
                Numbers::Wholes {
                    size: *size,
                    rank: *rank,
                    signed: *signed,
                },
                *n,
            ),
            _ => Err(Reason::Mismatch),
        },
        _ => Err(Reason::Mismatch),
    }
}

// An operator over two numbers, of which the left one has that type.
fn two_numbers(types: &TypeTable, op: Op, ty: TypeId, x: i128, y: i128) -> Result<i128, Reason>
    requires { ty.0 < length types.now.terms }
    ensures { Agrees (λ n. n) result (over_two op (type_of types.now ty.0) x y) }
{
    match types.term(ty) {
        Term::Integer { size, rank, signed } => over_two(
            op,
            Numbers::Wholes {
                size: *size,
                rank: *rank,
                signed: *signed,
            },
            x,
            y,
        ),
        _ => Err(Reason::Mismatch),
    }
}

// An operator over two values.
fn two_row(types: &TypeTable, op: Op, ty: TypeId, a: &Cell, b: &Cell) -> Result<i128, Reason>
    requires { ty.0 < length types.now.terms }
    ensures { Agrees (λ n. n) result (two_row op (type_of types.now ty.0) a.now b.now) }
{
    match a {
        Cell::Number(x) => match b {
            Cell::Number(y) => two_numbers(types, op, ty, *x, *y),
            _ => compared(op, a, b),
        },
        _ => compared(op, a, b),
    }
}

// Whether the value of a node wasn't returned.
fn lacks_one(
    alloc: Global,
    trees: &Trees<'_>,
    values: &[(u32, Value)],
    n: u32,
) -> Result<bool, OutOfMemory>
    requires range { InRange (core_of trees.now) }
    requires node { n < length trees.now.nodes.now }
    ensures { IfOk result (λ b. b ≡ lacks_one (core_of trees.now) values.now n) }
{
    let ty = trees.nodes[n as usize].ty;
    let value = value_in(alloc, values, n)?;
    Ok(is_missing(trees.types, ty, &value))
}

/// Whether the value of one of a node's children wasn't returned.
pub fn lacks(
    alloc: Global,
    trees: &Trees<'_>,
    values: &[(u32, Value)],
    n: u32,
    nodes: &[u32],
) -> Result<bool, OutOfMemory>
    requires range { InRange (core_of trees.now) }
    requires node { n < length trees.now.nodes.now }
    requires nodes { All (λ c. c < n) nodes.now }
    ensures { IfOk result (λ b. b ≡ lacks (core_of trees.now) values.now nodes.now) }
{
    for c in nodes {
        if lacks_one(alloc, trees, values, *c)? {
            return Ok(true);
        }
    }
    Ok(false)
}

// Whether a node uses the values of all its operands.
fn uses_all(types: &TypeTable, node: &Node) -> bool
    requires { node.now.ty.0 < length types.now.terms }
    ensures { result ≡ uses_all (type_of types.now node.now.ty.0) node.now.kind }
{
    match &node.kind {
        NodeKind::Convert => !matches!(types.term(node.ty), Term::Void),
        NodeKind::Sequence | NodeKind::Choose | NodeKind::Literal(_) => false,
        _ => true,
    }
}

// The width of a place that is a bit-field.
fn place_bits(trees: &Trees<'_>, p: u32) -> Option<u8>
    requires range { InRange (core_of trees.now) }
    requires place { p < length trees.now.nodes.now }
    ensures { result ≡ place_bits (core_of trees.now) (slice_get trees.now.nodes.now p) }
{
    let node = &trees.nodes[p as usize];
    match &node.kind {
        NodeKind::Member(k) => match node.children.as_slice() {
            [whole, ..] => member_width(trees.types, trees.nodes[*whole as usize].ty, *k),
            [] => None,
        },
        _ => None,
    }
}

// The operand of a node that has one.
fn one_of(children: &[u32], n: u32) -> Option<u32>
    requires { All (λ c. c < n) children.now }
    ensures value { result ≡ one_of children.now }
    ensures below { IfSome result (λ v. v < n) }
{
    match children {
        [v] => Some(*v),
        _ => None,
    }
}

// The operands of a node that has two.
fn two_of(children: &[u32], n: u32) -> Option<(u32, u32)>
    requires { All (λ c. c < n) children.now }
    ensures value { result ≡ two_of children.now }
    ensures below { IfSome result (λ p. (p.0 < n) × (p.1 < n)) }
{
    match children {
        [a, b] => Some((*a, *b)),
        _ => None,
    }
}

// Whether a kind's value is one cell, which is made without a look at what the memory holds.
fn gives_cell(kind: &NodeKind) -> bool
    ensures { result ≡ gives_cell kind.now }
{
    match kind {
        NodeKind::Named(_) | NodeKind::Text(_) | NodeKind::Literal(_) => true,
        NodeKind::FunctionName(_) | NodeKind::Number(_) | NodeKind::NullValue => true,
        NodeKind::Deref | NodeKind::Member(_) | NodeKind::VarArgs(_) => true,
        _ => false,
    }
}

// A place reached by a pointer.
fn deref_computed(
    alloc: Global,
    values: &[(u32, Value)],
    operand: Option<u32>,
) -> Result<Cell, MemFault>
    ensures { Gives (λ c. c) result (deref_computed values.now operand) }
{
    match operand {
        Some(v) => {
            let cell = cell_in(alloc, values, v)?;
            deref_row(cell)
        }
        None => Err(MemFault::Stop(Reason::Mismatch)),
    }
}

// A member's place.
fn member_computed(
    alloc: Global,
    trees: &Trees<'_>,
    memory: &Memory,
    k: u32,
    values: &[(u32, Value)],
    operand: Option<u32>,
) -> Result<Cell, MemFault>
    requires range { InRange (core_of trees.now) }
    requires memory { AreKnown (length trees.now.types.now.terms) memory.now }
    requires operand { IfSome operand (λ v. v < length trees.now.nodes.now) }
    ensures { Gives (λ c. c) result (member_computed (core_of trees.now) memory.now k values.now operand) }
{
    match operand {
        Some(p) => {
            let cell = cell_in(alloc, values, p)?;
            let s = trees.nodes[p as usize].ty;
            member_row(alloc, trees.types, memory.instances(), cell, s, k)
        }
        None => Err(MemFault::Stop(Reason::Mismatch)),
    }
}

// A cell, by the kind of the node.
fn cell_computed(
    alloc: Global,
    trees: &Trees<'_>,
    memory: &Memory,
    own: &[u32],
    n: u32,
    node: &Node,
    values: &[(u32, Value)],
) -> Result<Cell, MemFault>
    requires range { InRange (core_of trees.now) }
    requires memory { AreKnown (length trees.now.types.now.terms) memory.now }
    requires node { n < length trees.now.nodes.now }
    requires children { All (λ c. c < n) node.now.children }
    ensures { Gives (λ c. c) result
        (cell_computed (core_of trees.now) memory.now own.now n node.now.kind node.now.children values.now) }
{
    let instances = memory.instances();
    match &node.kind {
        NodeKind::Named(e) => named_row(alloc, instances, own, entity_key(trees.entities, *e)),
        NodeKind::Text(_) => named_row(alloc, instances, own, ObjectKey::Text(n)),
        NodeKind::Literal(e) => named_row(alloc, instances, own, ObjectKey::Entity(*e)),
        NodeKind::FunctionName(e) => Ok(Cell::Function(entity_key(trees.entities, *e))),
        NodeKind::Number(k) => Ok(Cell::Number(k.get())),
        NodeKind::NullValue => Ok(Cell::Null),
        NodeKind::VarArgs(e) => varargs_row(alloc, instances, own, *e),
        NodeKind::Deref => deref_computed(alloc, values, one_of(node.children.as_slice(), n)),
        NodeKind::Member(k) => {
            let operand = one_of(node.children.as_slice(), n);
            member_computed(alloc, trees, memory, *k, values, operand)
        }
        _ => Err(MemFault::Stop(Reason::Mismatch)),
    }
}

// A value over one operand, by the kind of the node.
fn one_computed(
    alloc: Global,
    trees: &Trees<'_>,
    memory: &mut Memory,
    node: &Node,
    operand: u32,
    values: &[(u32, Value)],
    word: u64,
) -> Result<LibOutcome, MemFault>
    requires range { InRange (core_of trees.now) }
    requires memory { AreKnown (length trees.now.types.now.terms) memory.old }
    requires ty { node.now.ty.0 < length trees.now.types.now.terms }
    requires operand { operand < length trees.now.nodes.now }
    ensures value { Gives (λ o. record { memory = memory.new; outcome = o }) result
        (one_computed (core_of trees.now) memory.old node.now.ty node.now.kind operand values.now word) }
    ensures err { OnErr result (memory.new ≡ memory.old) }
{
    let types = trees.types;
    let from = trees.nodes[operand as usize].ty;
    match &node.kind {
        NodeKind::Fetch => {
            let place = cell_in(alloc, values, operand)?;
            fetch_row(alloc, types, memory, &place, node.ty)
        }
        NodeKind::AddressOf => {
            let place = cell_in(alloc, values, operand)?;
            Ok(cell_given(alloc, place)?)
        }
        NodeKind::Decay => {
            let place = cell_in(alloc, values, operand)?;
            let cell = decay_row(alloc, types, memory.instances(), place, from)?;
            Ok(cell_given(alloc, cell)?)
        }
        NodeKind::Convert => {
            let cell = cell_in(alloc, values, operand)?;
            convert_row(alloc, types, memory, from, cell, node.ty, word)
        }
        NodeKind::Upcast => {
            let cell = cell_in(alloc, values, operand)?;
            let cell = upcast_row(alloc, types, memory.instances(), cell, from)?;
            Ok(cell_given(alloc, cell)?)
        }
        NodeKind::MemberOfValue(k) => {
            let value = value_in(alloc, values, operand)?;
            member_of_value_row(alloc, types, memory, from, *k, &value.cells)
        }
        NodeKind::Arith(op) => {
            let cell = cell_in(alloc, values, operand)?;
            let n = one_row(types, *op, from, &cell)?;
            Ok(cell_given(alloc, Cell::Number(n))?)
        }
        _ => Err(MemFault::Stop(Reason::Mismatch)),
    }
}

// An update, with the width of its place.
fn update_at(trees: &Trees<'_>, ty: TypeId, op: Op, post: bool, p: u32, v: u32) -> Update
    requires range { InRange (core_of trees.now) }
    requires place { p < length trees.now.nodes.now }
    requires value { v < length trees.now.nodes.now }
    ensures ty { result.ty ≡ ty }
    ensures op { result.op ≡ op }
    ensures post { result.post ≡ post }
    ensures bits { result.bits ≡ place_bits (core_of trees.now) (slice_get trees.now.nodes.now p) }
    ensures value { type_of trees.now.types.now result.value_type.0 ≡ type_at (core_of trees.now) v }
    ensures within { result.value_type.0 < length trees.now.types.now.terms }
{
    Update {
        ty,
        op,
        post,
        bits: place_bits(trees, p),
        value_type: trees.nodes[v as usize].ty,
    }
}

// An operator over the values of two nodes.
fn two_given(
    alloc: Global,
    trees: &Trees<'_>,
    op: Op,
    a: u32,
    b: u32,
    values: &[(u32, Value)],
) -> Result<i128, MemFault>
    requires range { InRange (core_of trees.now) }
    requires left { a < length trees.now.nodes.now }
    ensures { Gives (λ n. n) result
        (two_row op (type_at (core_of trees.now) a) (cell_in values.now a) (cell_in values.now b)) }
{
    let ty = trees.nodes[a as usize].ty;
    let x = cell_in(alloc, values, a)?;
    let y = cell_in(alloc, values, b)?;
    Ok(two_row(trees.types, op, ty, &x, &y)?)
}

// A value over two operands, by the kind of the node.
fn two_computed(
    alloc: Global,
    trees: &Trees<'_>,
    memory: &mut Memory,
    node: &Node,
    a: u32,
    b: u32,
    values: &[(u32, Value)],
) -> Result<LibOutcome, MemFault>
    requires range { InRange (core_of trees.now) }
    requires memory { AreKnown (length trees.now.types.now.terms) memory.old }
    requires ty { node.now.ty.0 < length trees.now.types.now.terms }
    requires left { a < length trees.now.nodes.now }
    requires right { b < length trees.now.nodes.now }
    ensures value { Gives (λ o. record { memory = memory.new; outcome = o }) result
        (two_computed (core_of trees.now) memory.old node.now.ty node.now.kind a b values.now) }
    ensures err { OnErr result (memory.new ≡ memory.old) }
{
    let types = trees.types;
    match &node.kind {
        NodeKind::PointerAdd { minus } => {
            let cell = cell_in(alloc, values, a)?;
            let count = cell_in(alloc, values, b)?;
            let cell = pointer_moved(alloc, types, memory, cell, *minus, &count)?;
            Ok(cell_given(alloc, cell)?)
        }
        NodeKind::Assign => {
            let place = cell_in(alloc, values, a)?;
            let value = value_in(alloc, values, b)?;
            assign_row(alloc, types, memory, &place, node.ty, value)
        }
        NodeKind::Update { op, post } => {
            let place = cell_in(alloc, values, a)?;
            let v = cell_in(alloc, values, b)?;
            let update = update_at(trees, node.ty, *op, *post, a, b);
            update_row(alloc, types, memory, &place, update, &v)
        }
        NodeKind::Sequence => {
            let value = value_in(alloc, values, b)?;
            Ok(gives(alloc, value))
        }
        NodeKind::Arith(op) => {
            let n = two_given(alloc, trees, *op, a, b, values)?;
            Ok(cell_given(alloc, Cell::Number(n))?)
        }
        _ => Err(MemFault::Stop(Reason::Mismatch)),
    }
}

// A value, by how many operands it has.
fn value_computed(
    alloc: Global,
    trees: &Trees<'_>,
    memory: &mut Memory,
    n: u32,
    node: &Node,
    values: &[(u32, Value)],
    word: u64,
) -> Result<LibOutcome, MemFault>
    requires range { InRange (core_of trees.now) }
    requires memory { AreKnown (length trees.now.types.now.terms) memory.old }
    requires node { n < length trees.now.nodes.now }
    requires ty { node.now.ty.0 < length trees.now.types.now.terms }
    requires children { All (λ c. c < n) node.now.children }
    ensures value { Gives (λ o. record { memory = memory.new; outcome = o }) result
        (value_computed (core_of trees.now) memory.old node.now.ty node.now.kind node.now.children (one_of node.now.children)
        values.now word) }
    ensures err { OnErr result (memory.new ≡ memory.old) }
{
    match one_of(node.children.as_slice(), n) {
        Some(v) => one_computed(alloc, trees, memory, node, v, values, word),
        None => match two_of(node.children.as_slice(), n) {
            Some(p) => two_computed(alloc, trees, memory, node, p.0, p.1, values),
            None => Err(MemFault::Stop(Reason::Mismatch)),
        },
    }
}

// What a node computes, by its kind.
fn computed_by(
    alloc: Global,
    trees: &Trees<'_>,
    memory: &mut Memory,
    own: &[u32],
    n: u32,
    node: &Node,
    values: &[(u32, Value)],
    word: u64,
) -> Result<LibOutcome, MemFault>
    requires range { InRange (core_of trees.now) }
    requires memory { AreKnown (length trees.now.types.now.terms) memory.old }
    requires node { n < length trees.now.nodes.now }
    requires ty { node.now.ty.0 < length trees.now.types.now.terms }
    requires children { All (λ c. c < n) node.now.children }
    ensures value { Gives (λ o. record { memory = memory.new; outcome = o }) result
        (computed_by (core_of trees.now) memory.old own.now n node.now.ty node.now.kind node.now.children values.now word) }
    ensures err { OnErr result (memory.new ≡ memory.old) }
{
    if gives_cell(&node.kind) {
        let cell = cell_computed(alloc, trees, memory, own, n, node, values)?;
        Ok(cell_given(alloc, cell)?)
    } else {
        value_computed(alloc, trees, memory, n, node, values, word)
    }
}

// Whether a node uses a value that wasn't returned.
fn uses_lacking(
    alloc: Global,
    trees: &Trees<'_>,
    n: u32,
    node: &Node,
    values: &[(u32, Value)],
) -> Result<bool, OutOfMemory>
    requires range { InRange (core_of trees.now) }
    requires node { n < length trees.now.nodes.now }
    requires ty { node.now.ty.0 < length trees.now.types.now.terms }
    requires children { All (λ c. c < n) node.now.children }
    ensures { IfOk result (λ b. b ≡ (uses_all (type_of trees.now.types.now node.now.ty.0) node.now.kind &&
        lacks (core_of trees.now) values.now node.now.children)) }
{
    if uses_all(trees.types, node) {
        lacks(alloc, trees, values, n, node.children.as_slice())
    } else {
        Ok(false)
    }
}

/// What a node computes, all of whose operands have their values. A refusal leaves the memory as it was.
#[tactic(auto, unfolding(crate::specs::Values::computed))]
pub fn computed(
    alloc: Global,
    trees: &Trees<'_>,
    memory: &mut Memory,
    own: &[u32],
    n: u32,
    values: &[(u32, Value)],
    word: u64,
) -> Result<LibOutcome, MemFault>
    requires range { InRange (core_of trees.now) }
    requires memory { AreKnown (length trees.now.types.now.terms) memory.old }
    requires node { n < length trees.now.nodes.now }
    ensures value { (node : Node) → slice_get trees.now.nodes.now n ≡ Some node →
        Gives (λ o. record { memory = memory.new; outcome = o }) result
        (computed (core_of trees.now) memory.old own.now n node values.now word) }
    ensures err { OnErr result (memory.new ≡ memory.old) }
{
    let node = &trees.nodes[n as usize];
    if uses_lacking(alloc, trees, n, node, values)? {
        return Err(MemFault::Stop(Reason::Unset));
    }
    computed_by(alloc, trees, memory, own, n, node, values, word)
}

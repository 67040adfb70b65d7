// The rows of values that read memory or change it.

ghost use Rattle.std.specs.Prelude.{◌≡◌, ◌<◌, if◌then◌else◌, List, Ok, IfOk, OnErr, length, map, slice_get};
ghost use Rattle.c_types.specs.declared.term.PathStep.TheVariants.{Member};
ghost use Rattle.ref_cells.specs.declared.instance.Instance.{Instance};
ghost use Rattle.ref_cells.specs.Cells.{under, behind};
ghost use Rattle.ref_cells.specs.Order.{IsOrdered};
ghost use Rattle.ref_cells.specs.Values.{active, member_step};
ghost use Rattle.c_types.specs.Table.{type_of};
ghost use Rattle.ref_cells.specs.Answers.{Gives, Agrees};
ghost use Rattle.ref_cells.specs.declared.cells.Cell.TheVariants.{Number};
ghost use Rattle.ref_cells.specs.Places.{AreKnown};
ghost use Rattle.ref_values.specs.Numbers.{type_of_numbers};
ghost use Rattle.ref_values.specs.Memory.{fetch_row, stores_at, assign_row, pointee, complete_only, typed_by};
ghost use Rattle.ref_values.specs.Memory.{pointer_converted, number_converted, convert_row, pointer_moved, is_minus};
ghost use Rattle.ref_values.specs.Memory.{number_updated, scalar_updated, cell_updated, update_written, update_row};
ghost use Rattle.ref_values.specs.Memory.{is_union, is_empty, value_within, member_of_value_row, has_scalars, is_missing};

use crate::numbers::{Numbers, converted_to, over_two, promoted, update_type};
use c_types::table::TypeTable;
use c_types::term::{OutOfMemory, PathStep, Term, TypeId};
use core_tree::Op;
use pta_base::Listing;
use ref_cells::cells::{Cell, Cells, MemFault, Path, Reason, Value, copy_path, push_entry};
use ref_cells::order::under;
use ref_cells::wholes::is_allocated;
use ref_elements::outcome::{LibOutcome, gives, number_value, stores_and_gives};
use ref_elements::parts::{pointers_of, single};
use ref_mem::memory::Memory;
use ref_places::pointers::moved;
use ref_state::values::scalar_of;
use std::alloc::Global;
use type_rules::sizes::is_object;

/// Fetch: a read.
pub fn fetch_row(
    alloc: Global,
    types: &TypeTable,
    memory: &Memory,
    place: &Cell,
    ty: TypeId,
) -> Result<LibOutcome, MemFault>
    requires memory { AreKnown (length types.now.terms) memory.now }
    requires ty { ty.0 < length types.now.terms }
    ensures { Gives (λ o. record { memory = memory.now; outcome = o }) result
        (fetch_row types.now memory.now place.now (type_of types.now ty.0)) }
{
    let value = memory.read(types, place, ty)?;
    Ok(gives(alloc, value))
}

/// The pointers that a value puts under a place, each with its own place.
pub fn stores_at(
    alloc: Global,
    place: &Cell,
    cells: &Cells,
) -> Result<Listing<(Cell, Cell)>, OutOfMemory>
    ensures { IfOk result (λ list. list ≡ stores_at place.now cells.now) }
{
    match place {
        Cell::Pointer { instance, path, .. } => {
            let front = copy_path(alloc, path.as_slice())?;
            let cells = cells.copy(alloc)?;
            let parts = single(alloc, front, cells)?;
            pointers_of(alloc, *instance, parts.as_slice())
        }
        Cell::Unset | Cell::Number(_) | Cell::Null | Cell::Function(_) => Ok(Listing::new(alloc)),
    }
}

/// Assign: a write, which gives the value as it came. A refusal leaves the memory as it was.
pub fn assign_row(
    alloc: Global,
    types: &TypeTable,
    memory: &mut Memory,
    place: &Cell,
    ty: TypeId,
    value: Value,
) -> Result<LibOutcome, MemFault>
    requires memory { AreKnown (length types.now.terms) memory.old }
    requires ty { ty.0 < length types.now.terms }
    ensures value { Gives (λ o. record { memory = memory.new; outcome = o }) result
        (assign_row types.now memory.old place.now (type_of types.now ty.0) value) }
    ensures err { OnErr result (memory.new ≡ memory.old) }
{
    let stores = stores_at(alloc, place, &value.cells)?;
    memory.write(types, place, ty, &value)?;
    Ok(stores_and_gives(value, stores))
}

/// The complete type that a pointer's type points to.
pub fn pointee(types: &TypeTable, ty: TypeId) -> Option<TypeId>
    requires { ty.0 < length types.now.terms }
    ensures { result ≡ complete_only types.now (pointee (slice_get types.now.terms ty.0)) }
{
    match types.term(ty) {
        Term::Pointer(to) => {
            if is_object(types, *to) {
                Some(*to)
            } else {
                None
            }
        }
        _ => None,
    }
}

// An allocated object without a type gets that of its elements by a pointer to a complete type.
fn give_type(types: &TypeTable, memory: &mut Memory, cell: &Cell, ty: TypeId)
    requires { ty.0 < length types.now.terms }
    ensures { memory.new ≡ typed_by types.now memory.old cell.now ty }
{
    if let Cell::Pointer { instance, .. } = cell {
        let untyped = match memory.instances().get(*instance as usize) {
            Some(inst) => inst.ty.is_none() && is_allocated(inst.key),
            None => false,
        };
        if untyped {
            if let Some(of) = pointee(types, ty) {
                memory.give_type(types, *instance, of);
            }
        }
    }
}

// A pointer converted.
fn pointer_converted(
    alloc: Global,
    types: &TypeTable,
    memory: &mut Memory,
    cell: Cell,
    ty: TypeId,
    word: u64,
) -> Result<LibOutcome, MemFault>
    requires { ty.0 < length types.now.terms }
    ensures value { Gives (λ o. record { memory = memory.new; outcome = o }) result
        (pointer_converted types.now memory.old cell ty (type_of types.now ty.0) word) }
    ensures err { OnErr result (memory.new ≡ memory.old) }
{
    match types.term(ty) {
        Term::Bool => {
            let n = if let Cell::Null = cell { 0 } else { 1 };
            let value = Value::one(alloc, Cell::Number(n))?;
            Ok(gives(alloc, value))
        }
        Term::Integer { .. } => {
            let value = number_value(alloc, types, ty, i128::from(word))?;
            Ok(gives(alloc, value))
        }
        _ => {
            let there = cell.copy(alloc)?;
            let value = Value::one(alloc, cell)?;
            give_type(types, memory, &there, ty);
            Ok(gives(alloc, value))
        }
    }
}

// A number converted.
fn number_converted(
    alloc: Global,
    types: &TypeTable,
    memory: &Memory,
    cell: Cell,
    ty: TypeId,
) -> Result<LibOutcome, MemFault>
    requires { ty.0 < length types.now.terms }
    ensures { Gives (λ o. record { memory = memory.now; outcome = o }) result
        (number_converted memory.now (type_of types.now ty.0) cell) }
{
    let _ = memory;
    match cell {
        Cell::Number(n) => {
            let value = number_value(alloc, types, ty, n)?;
            Ok(gives(alloc, value))
        }
        _ => Err(MemFault::Stop(Reason::Mismatch)),
    }
}

/// Convert: from one type to another. A refusal leaves the memory as it was.
#[tactic(auto, unfolding(crate::specs::Memory::convert_row))]
pub fn convert_row(
    alloc: Global,
    types: &TypeTable,
    memory: &mut Memory,
    from: TypeId,
    cell: Cell,
    ty: TypeId,
    word: u64,
) -> Result<LibOutcome, MemFault>
    requires from { from.0 < length types.now.terms }
    requires ty { ty.0 < length types.now.terms }
    ensures value { Gives (λ o. record { memory = memory.new; outcome = o }) result
        (convert_row types.now memory.old (type_of types.now from.0) cell ty word) }
    ensures err { OnErr result (memory.new ≡ memory.old) }
{
    if let Term::Void = types.term(ty) {
        return Ok(gives(alloc, Value::none(alloc)));
    }
    match types.term(from) {
        Term::Pointer(_) => pointer_converted(alloc, types, memory, cell, ty, word),
        Term::Void | Term::Bool | Term::Floating | Term::VaList | Term::Integer { .. } => {
            number_converted(alloc, types, memory, cell, ty)
        }
        Term::Array { .. } | Term::Function { .. } | Term::Structure(_) | Term::Union(_) => {
            number_converted(alloc, types, memory, cell, ty)
        }
    }
}

/// A pointer moved by a number of elements, backward where `minus` stands.
pub fn pointer_moved(
    alloc: Global,
    types: &TypeTable,
    memory: &Memory,
    cell: Cell,
    minus: bool,
    count: &Cell,
) -> Result<Cell, MemFault>
    requires { AreKnown (length types.now.terms) memory.now }
    ensures { Gives (λ c. c) result (pointer_moved types.now memory.now cell minus count.now) }
{
    match count {
        Cell::Number(k) => moved(alloc, types, memory.instances(), cell, minus, *k),
        _ => Err(MemFault::Stop(Reason::Mismatch)),
    }
}

// The number that an integer holds after an update.
fn number_updated(
    types: &TypeTable,
    place: Numbers,
    op: Op,
    bits: Option<u8>,
    old: i128,
    value_type: TypeId,
    v: i128,
) -> Result<i128, Reason>
    requires { value_type.0 < length types.now.terms }
    ensures { Agrees (λ n. Number n) result
        (number_updated (type_of_numbers place) op bits old (type_of types.now value_type.0) v) }
{
    let common = update_type(types, op, promoted(place, bits), value_type);
    match over_two(op, common, converted_to(common, old), v) {
        Ok(n) => Ok(converted_to(place, n)),
        Err(reason) => Err(reason),
    }
}

// The number that a scalar of a type holds after an update.
fn scalar_updated(
    types: &TypeTable,
    ty: TypeId,
    op: Op,
    bits: Option<u8>,
    old: i128,
    value_type: TypeId,
    v: i128,
) -> Result<i128, Reason>
    requires ty { ty.0 < length types.now.terms }
    requires value { value_type.0 < length types.now.terms }
    ensures { Agrees (λ n. Number n) result (scalar_updated (type_of types.now ty.0) op bits (Number old)
        (type_of types.now value_type.0) (Number v)) }
{
    match types.term(ty) {
        Term::Bool => number_updated(types, Numbers::Truths, op, bits, old, value_type, v),
        Term::Integer { size, rank, signed } => {
            let place = Numbers::Wholes {
                size: *size,
                rank: *rank,
                signed: *signed,
            };
            number_updated(types, place, op, bits, old, value_type, v)
        }
        Term::Void | Term::Floating | Term::VaList | Term::Pointer(_) => Err(Reason::Mismatch),
        Term::Array { .. } | Term::Function { .. } | Term::Structure(_) | Term::Union(_) => {
            Err(Reason::Mismatch)
        }
    }
}

/// What an update does: the type of its place, the operator, whether it gives the old value, the width of the place where it
/// is a bit-field, and the type of the other operand.
#[derive(Clone, Copy)]
pub struct Update {
    pub ty: TypeId,
    pub op: Op,
    pub post: bool,
    pub bits: Option<u8>,
    pub value_type: TypeId,
}

// Whether an operator is the minus.
fn is_minus(op: Op) -> bool
    ensures { result ≡ is_minus op }
{
    matches!(op, Op::Minus)
}

// The cell that a scalar holds after an update.
fn cells_updated(types: &TypeTable, update: Update, old: &Cell, v: &Cell) -> Result<Cell, MemFault>
    requires ty { update.ty.0 < length types.now.terms }
    requires value { update.value_type.0 < length types.now.terms }
    ensures { Gives (λ c. c) result (scalar_updated (type_of types.now update.ty.0) update.op update.bits old.now
        (type_of types.now update.value_type.0) v.now) }
{
    match old {
        Cell::Number(n) => match v {
            Cell::Number(m) => {
                match scalar_updated(
                    types,
                    update.ty,
                    update.op,
                    update.bits,
                    *n,
                    update.value_type,
                    *m,
                ) {
                    Ok(n) => Ok(Cell::Number(n)),
                    Err(reason) => Err(MemFault::Stop(reason)),
                }
            }
            Cell::Unset | Cell::Null | Cell::Pointer { .. } | Cell::Function(_) => Err(
                MemFault::Stop(Reason::Mismatch),
            ),
        },
        Cell::Unset | Cell::Null | Cell::Pointer { .. } | Cell::Function(_) => Err(MemFault::Stop(
            Reason::Mismatch,
        )),
    }
}

// The cell that a place holds after an update.
fn cell_updated(
    alloc: Global,
    types: &TypeTable,
    memory: &Memory,
    update: Update,
    old: Cell,
    v: &Cell,
) -> Result<Cell, MemFault>
    requires memory { AreKnown (length types.now.terms) memory.now }
    requires ty { update.ty.0 < length types.now.terms }
    requires value { update.value_type.0 < length types.now.terms }
    ensures { Gives (λ c. c) result (cell_updated types.now memory.now (type_of types.now update.ty.0) update.op update.bits old
        (type_of types.now update.value_type.0) v.now) }
{
    if let Term::Pointer(_) = types.term(update.ty) {
        let minus = is_minus(update.op);
        return pointer_moved(alloc, types, memory, old, minus, v);
    }
    cells_updated(types, update, &old, v)
}

// One of two values.
fn chosen(first: bool, one: Value, other: Value) -> Value
    ensures { result ≡ (if first then one else other) }
{
    if first { one } else { other }
}

// The write of an update, which gives the old value or the new one.
fn update_written(
    alloc: Global,
    types: &TypeTable,
    memory: &mut Memory,
    place: &Cell,
    update: Update,
    old: Cell,
    new: Cell,
) -> Result<LibOutcome, MemFault>
    requires memory { AreKnown (length types.now.terms) memory.old }
    requires ty { update.ty.0 < length types.now.terms }
    ensures value { Gives (λ o. record { memory = memory.new; outcome = o }) result
        (update_written types.now memory.old place.now (type_of types.now update.ty.0) update.post old new) }
    ensures err { OnErr result (memory.new ≡ memory.old) }
{
    let before = Value::one(alloc, old)?;
    let after = Value::one(alloc, new)?;
    let stores = stores_at(alloc, place, &after.cells)?;
    memory.write(types, place, update.ty, &after)?;
    Ok(stores_and_gives(chosen(update.post, before, after), stores))
}

/// Update: a read, a computation and a write. A refusal leaves the memory as it was.
#[tactic(auto, unfolding(crate::specs::Memory::update_row))]
pub fn update_row(
    alloc: Global,
    types: &TypeTable,
    memory: &mut Memory,
    place: &Cell,
    update: Update,
    v: &Cell,
) -> Result<LibOutcome, MemFault>
    requires memory { AreKnown (length types.now.terms) memory.old }
    requires ty { update.ty.0 < length types.now.terms }
    requires value { update.value_type.0 < length types.now.terms }
    ensures value { Gives (λ o. record { memory = memory.new; outcome = o }) result
        (update_row types.now memory.old place.now (type_of types.now update.ty.0) update.op update.post update.bits
        (type_of types.now update.value_type.0) v.now) }
    ensures err { OnErr result (memory.new ≡ memory.old) }
{
    let value = memory.read(types, place, update.ty)?;
    let old = scalar_of(alloc, &value)?;
    let before = old.copy(alloc)?;
    let new = cell_updated(alloc, types, memory, update, old, v)?;
    update_written(alloc, types, memory, place, update, before, new)
}

// An equal cell, seen from behind the first step of its path.
fn copy_behind(alloc: Global, entry: &(Path, Cell)) -> Result<(Path, Cell), OutOfMemory>
    ensures { IfOk result (λ copy. copy ≡ behind entry.now) }
{
    let path = match entry.0.as_slice() {
        [_, rest @ ..] => copy_path(alloc, rest)?,
        [] => Listing::new(alloc),
    };
    let cell = entry.1.copy(alloc)?;
    Ok((path, cell))
}

// Equal cells, seen from behind the first steps of their paths.
fn copies_behind(alloc: Global, cells: &[(Path, Cell)]) -> Result<Vec<(Path, Cell)>, OutOfMemory>
    ensures { IfOk result (λ list. list.items ≡ map behind cells.now) }
{
    let mut list = Vec::new(alloc);
    for entry in cells {
        let copy = copy_behind(alloc, entry)?;
        push_entry(&mut list, copy.0, copy.1)?;
    }
    Ok(list)
}

// The cells under a member, seen from behind it.
#[tactic(auto, using(ref_cells::proofs::Unders::seen_none))]
fn cells_under(alloc: Global, k: u32, cells: &[(Path, Cell)]) -> Result<Cells, OutOfMemory>
    requires { IsOrdered cells.now }
    ensures { IfOk result (λ part. part ≡ under (Member k) cells.now) }
{
    let part = under(cells, 0, PathStep::Member(k));
    let list = copies_behind(alloc, part)?;
    Ok(Cells::of(list))
}

// Whether there are no cells.
fn is_empty(cells: &[(Path, Cell)]) -> bool
    ensures { result ≡ is_empty cells.now }
{
    match cells {
        [] => true,
        [_, ..] => false,
    }
}

// The member to which a path goes first.
fn member_step(path: &[PathStep]) -> u32
    ensures { result ≡ member_step path.now }
{
    match path {
        [PathStep::Member(m), ..] => *m,
        _ => 0,
    }
}

// The member of a union's value of which cells are listed.
fn active(cells: &[(Path, Cell)]) -> u32
    ensures { result ≡ active cells.now }
{
    match cells {
        [] => 0,
        [entry, ..] => member_step(entry.0.as_slice()),
    }
}

// Whether a type is a union.
fn is_union(types: &TypeTable, ty: TypeId) -> bool
    requires { ty.0 < length types.now.terms }
    ensures { result ≡ is_union (type_of types.now ty.0) }
{
    matches!(types.term(ty), Term::Union(_))
}

// A scalar that is unset counts as a value that wasn't returned.
fn value_within(alloc: Global, cells: Cells) -> Value
    ensures { result ≡ value_within cells }
{
    let unset = match cells.as_slice() {
        [entry] => entry.0.as_slice().is_empty() && matches!(entry.1, Cell::Unset),
        _ => false,
    };
    if unset {
        Value::none(alloc)
    } else {
        Value { cells }
    }
}

/// MemberOfValue: member `k` of a value; of a union the active one alone.
#[tactic(auto, unfolding(crate::specs::Memory::member_of_value_row))]
pub fn member_of_value_row(
    alloc: Global,
    types: &TypeTable,
    memory: &Memory,
    s: TypeId,
    k: u32,
    cells: &Cells,
) -> Result<LibOutcome, MemFault>
    requires { s.0 < length types.now.terms }
    ensures { Gives (λ o. record { memory = memory.now; outcome = o }) result
        (member_of_value_row memory.now (type_of types.now s.0) k cells.now) }
{
    let _ = memory;
    let list = cells.as_slice();
    if is_union(types, s) && !is_empty(list) && active(list) != k {
        return Err(MemFault::Stop(Reason::Mismatch));
    }
    let part = cells_under(alloc, k, list)?;
    Ok(gives(alloc, value_within(alloc, part)))
}

// Whether a value of that size has scalars.
fn has_scalars(size: Option<u64>) -> bool
    ensures { result ≡ has_scalars size }
{
    match size {
        Some(size) => size != 0,
        None => false,
    }
}

/// Whether a value of a type wasn't returned, where the type has scalars.
pub fn is_missing(types: &TypeTable, ty: TypeId, value: &Value) -> bool
    requires { ty.0 < length types.now.terms }
    ensures { result ≡ is_missing types.now (type_of types.now ty.0) value.now }
{
    is_empty(value.cells.as_slice()) && has_scalars(types.size_of(ty))
}

// The functions that make objects and end them, and that name one of the library's.

ghost use Rattle.std.specs.Prelude.{◌≡◌, ◌<◌, map, pos, Some, IfOk, IfSome, OnErr, length, slice_get};
ghost use Rattle.ref_cells.specs.Answers.{Gives};
ghost use Rattle.ref_cells.specs.declared.instance.Instance.{Instance};
ghost use Rattle.ref_cells.specs.declared.cells.Cell.TheVariants.{Number};
ghost use Rattle.ref_elements.specs.Arguments.{argument};
ghost use Rattle.ref_cells.specs.Places.{IsKnown, AreKnown};
ghost use Rattle.ref_lib.specs.ref_alloc.Allocation.{allocated, malloc_row, calloc_row, is_live_heap, heap_at, free_row};
ghost use Rattle.ref_lib.specs.ref_alloc.Allocation.{takes, kept_elements, regrown, realloc_row, object_row, perhaps_row};
ghost use Rattle.ref_lib.specs.ref_alloc.Allocation.{place_row, all_number, ctype_set, ctype_row};

use c_types::key::ObjectKey;
use c_types::table::TypeTable;
use c_types::term::{OutOfMemory, TypeId};
use pta_base::Listing;
use ref_cells::cells::{Cell, Cells, MemFault, Path, Reason, Value, copy_path, push_entry};
use ref_cells::instance::Instance;
use ref_cells::wholes::{elements_in, is_heap};
use ref_elements::arguments::{argument, count};
use ref_elements::objects::{is_odd, is_start, next_number, object_at};
use ref_elements::outcome::{
    LibOutcome, gives, null_value, pointers_in, start_value, stores_and_gives,
};
use ref_elements::parts::{same_type, single};
use ref_mem::memory::{Memory, blank_cells};
use std::alloc::Global;

// A new object without a type.
fn allocate(
    alloc: Global,
    memory: &mut Memory,
    types: &TypeTable,
    key: ObjectKey,
    bytes: u64,
    zero: bool,
) -> Result<LibOutcome, MemFault>
    ensures value { Gives (λ o. record { memory = memory.new; outcome = o }) result (allocated memory.old key bytes zero) }
    ensures err { OnErr result (memory.new ≡ memory.old) }
{
    let value = start_value(alloc, next_number(memory)?)?;
    memory.make(types, key, None, bytes, zero)?;
    Ok(gives(alloc, value))
}

/// A new object of so many bytes, unset.
pub fn malloc_row(
    alloc: Global,
    memory: &mut Memory,
    types: &TypeTable,
    key: ObjectKey,
    word: u64,
    arguments: &[Value],
) -> Result<LibOutcome, MemFault>
    ensures value { Gives (λ o. record { memory = memory.new; outcome = o }) result
        (malloc_row memory.old key word (argument arguments.now 0)) }
    ensures err { OnErr result (memory.new ≡ memory.old) }
{
    if is_odd(word) {
        let value = null_value(alloc)?;
        return Ok(gives(alloc, value));
    }
    allocate(alloc, memory, types, key, count(arguments, 0), false)
}

/// A new object of so many elements of so many bytes, zero.
pub fn calloc_row(
    alloc: Global,
    memory: &mut Memory,
    types: &TypeTable,
    key: ObjectKey,
    word: u64,
    arguments: &[Value],
) -> Result<LibOutcome, MemFault>
    ensures value { Gives (λ o. record { memory = memory.new; outcome = o }) result
        (calloc_row memory.old key word (argument arguments.now 0) (argument arguments.now 1)) }
    ensures err { OnErr result (memory.new ≡ memory.old) }
{
    if is_odd(word) {
        let value = null_value(alloc)?;
        return Ok(gives(alloc, value));
    }
    let bytes = count(arguments, 0).wrapping_mul(count(arguments, 1));
    allocate(alloc, memory, types, key, bytes, true)
}

// Whether an instance lives and was allocated.
fn is_live_heap(instances: &[Instance], instance: u32) -> bool
    ensures { result ≡ is_live_heap (slice_get instances.now instance) }
{
    match instances.get(instance as usize) {
        Some(inst) => inst.live && is_heap(inst.key),
        None => false,
    }
}

/// The allocated instance that lives at whose start a pointer is.
pub fn heap_at(memory: &Memory, cell: &Cell) -> Option<u32>
    ensures place { result ≡ heap_at memory.now cell.now }
    ensures within { IfSome result (λ i. i < length memory.now) }
{
    match cell {
        Cell::Pointer {
            instance,
            path,
            past,
        } => {
            if is_start(path.as_slice()) && !*past && is_live_heap(memory.instances(), *instance) {
                Some(*instance)
            } else {
                None
            }
        }
        _ => None,
    }
}

/// Ends an object.
pub fn free_row(
    alloc: Global,
    memory: &mut Memory,
    arguments: &[Value],
) -> Result<LibOutcome, MemFault>
    ensures value { Gives (λ o. record { memory = memory.new; outcome = o }) result
        (free_row memory.old (argument arguments.now 0)) }
    ensures err { OnErr result (memory.new ≡ memory.old) }
{
    match argument(arguments, 0) {
        Some(Cell::Null) => Ok(gives(alloc, Value::none(alloc))),
        Some(cell) => match heap_at(memory, cell) {
            Some(instance) => {
                memory.end(instance);
                Ok(gives(alloc, Value::none(alloc)))
            }
            None => Err(MemFault::Stop(Reason::BadCall)),
        },
        None => Err(MemFault::Stop(Reason::BadCall)),
    }
}

// Whether an object of a fixed type takes elements of an old one.
fn takes(types: &TypeTable, fixed: Option<TypeId>, old: Option<TypeId>) -> bool
    requires fixed { IsKnown (length types.now.terms) fixed }
    requires old { IsKnown (length types.now.terms) old }
    ensures { result ≡ takes types.now fixed old }
{
    match fixed {
        Some(id) => match old {
            Some(other) => same_type(types, id, other),
            None => false,
        },
        None => true,
    }
}

// What is kept of an object's elements where it gets so many bytes.
fn kept_elements(
    alloc: Global,
    memory: &Memory,
    types: &TypeTable,
    i: u32,
    bytes: u64,
) -> Result<Cells, OutOfMemory>
    requires within { i < length memory.now }
    requires known { AreKnown (length types.now.terms) memory.now }
    ensures { IfOk result (λ cells.
        (old : Instance) → slice_get memory.now i ≡ Some old → cells ≡ kept_elements types.now old bytes old.ty) }
{
    let old = &memory.instances()[i as usize];
    match old.ty {
        Some(id) => {
            let n = elements_in(types, id, old.bytes).min(elements_in(types, id, bytes));
            memory.first_elements(types, i, id, n)
        }
        None => Ok(Cells::none(alloc)),
    }
}

// A new object of so many bytes with an old one's elements.
fn regrow(
    alloc: Global,
    memory: &mut Memory,
    types: &TypeTable,
    fresh: (ObjectKey, Option<TypeId>),
    bytes: u64,
    i: u32,
) -> Result<LibOutcome, MemFault>
    requires within { i < length memory.old }
    requires known { AreKnown (length types.now.terms) memory.old }
    requires fixed { IsKnown (length types.now.terms) fresh.1 }
    ensures value { Gives (λ o. record { memory = memory.new; outcome = o }) result
        (regrown types.now memory.old fresh.0 fresh.1 bytes i (slice_get memory.old i)) }
    ensures err { OnErr result (memory.new ≡ memory.old) }
{
    let ty = memory.instances()[i as usize].ty;
    if !takes(types, fresh.1, ty) {
        return Err(MemFault::Stop(Reason::Mismatch));
    }
    let cells = kept_elements(alloc, memory, types, i, bytes)?;
    let number = next_number(memory)?;
    let stores = pointers_in(alloc, number, cells.as_slice())?;
    let value = start_value(alloc, number)?;
    memory.make_with(fresh.0, ty, bytes, cells)?;
    memory.end(i);
    Ok(stores_and_gives(value, stores))
}

/// A new object of so many bytes with an old one's elements that fit.
pub fn realloc_row(
    alloc: Global,
    memory: &mut Memory,
    types: &TypeTable,
    fresh: (ObjectKey, Option<TypeId>),
    word: u64,
    arguments: &[Value],
) -> Result<LibOutcome, MemFault>
    requires known { AreKnown (length types.now.terms) memory.old }
    requires fixed { IsKnown (length types.now.terms) fresh.1 }
    ensures value { Gives (λ o. record { memory = memory.new; outcome = o }) result
        (realloc_row types.now memory.old fresh.0 fresh.1 word (argument arguments.now 0) (argument arguments.now 1)) }
    ensures err { OnErr result (memory.new ≡ memory.old) }
{
    if is_odd(word) {
        let value = null_value(alloc)?;
        return Ok(gives(alloc, value));
    }
    let bytes = count(arguments, 1);
    match argument(arguments, 0) {
        Some(Cell::Null) => allocate(alloc, memory, types, fresh.0, bytes, false),
        Some(cell) => match heap_at(memory, cell) {
            Some(i) => regrow(alloc, memory, types, fresh, bytes, i),
            None => Err(MemFault::Stop(Reason::BadCall)),
        },
        None => Err(MemFault::Stop(Reason::BadCall)),
    }
}

/// The first element of an object of the library.
pub fn object_row(alloc: Global, memory: &Memory, position: u32) -> Result<LibOutcome, MemFault>
    ensures { Gives (λ o. record { memory = memory.now; outcome = o }) result (object_row position memory.now) }
{
    match object_at(memory, position)? {
        Some(instance) => {
            let value = start_value(alloc, instance)?;
            Ok(gives(alloc, value))
        }
        None => Err(MemFault::Stop(Reason::Mismatch)),
    }
}

/// The same, or null where the word is odd.
pub fn perhaps_row(
    alloc: Global,
    memory: &Memory,
    position: u32,
    word: u64,
) -> Result<LibOutcome, MemFault>
    ensures { Gives (λ o. record { memory = memory.now; outcome = o }) result (perhaps_row position memory.now word) }
{
    if is_odd(word) {
        let value = null_value(alloc)?;
        return Ok(gives(alloc, value));
    }
    object_row(alloc, memory, position)
}

/// An object of the library itself.
pub fn place_row(alloc: Global, memory: &Memory, position: u32) -> Result<LibOutcome, MemFault>
    ensures { Gives (λ o. record { memory = memory.now; outcome = o }) result (place_row position memory.now) }
{
    match object_at(memory, position)? {
        Some(instance) => {
            let value = Value::one(
                alloc,
                Cell::Pointer {
                    instance,
                    path: Listing::new(alloc),
                    past: false,
                },
            )?;
            Ok(gives(alloc, value))
        }
        None => Err(MemFault::Stop(Reason::Mismatch)),
    }
}

// The same cells with that number in each.
fn with_number(
    alloc: Global,
    cells: &[(Path, Cell)],
    n: u64,
) -> Result<Vec<(Path, Cell)>, OutOfMemory>
    ensures { IfOk result (λ list. list.items ≡ map (λ e. (e.0, Number (pos n))) cells.now) }
{
    let mut list = Vec::new(alloc);
    for entry in cells {
        let path = copy_path(alloc, entry.0.as_slice())?;
        push_entry(&mut list, path, Cell::Number(i128::from(n)))?;
    }
    Ok(list)
}

// Cells that are each that number, of an object of a type.
fn all_number(
    alloc: Global,
    types: &TypeTable,
    n: u64,
    ty: Option<TypeId>,
) -> Result<Cells, OutOfMemory>
    requires { IsKnown (length types.now.terms) ty }
    ensures { IfOk result (λ cells. cells ≡ all_number types.now n ty) }
{
    match ty {
        Some(id) => {
            let cells = blank_cells(alloc, types, id, false)?;
            let list = with_number(alloc, cells.as_slice(), n)?;
            Ok(Cells::of(list))
        }
        None => Ok(Cells::none(alloc)),
    }
}

// Makes each cell of an instance that number; the call gives the place of another one.
fn ctype_set(
    alloc: Global,
    memory: &mut Memory,
    types: &TypeTable,
    n: u64,
    i: u32,
    place: u32,
) -> Result<LibOutcome, MemFault>
    requires { AreKnown (length types.now.terms) memory.old }
    ensures value { Gives (λ o. record { memory = memory.new; outcome = o }) result
        (ctype_set types.now memory.old n i place (slice_get memory.old i)) }
    ensures err { OnErr result (memory.new ≡ memory.old) }
{
    if i as usize >= memory.instances().len() {
        return Err(MemFault::Stop(Reason::Mismatch));
    }
    let ty = memory.instances()[i as usize].ty;
    let cells = all_number(alloc, types, n, ty)?;
    let parts = single(alloc, Listing::new(alloc), cells)?;
    let there = Cell::Pointer {
        instance: place,
        path: Listing::new(alloc),
        past: false,
    };
    let value = Value::one(alloc, there)?;
    memory.put_parts(types, i, parts.as_slice())?;
    Ok(gives(alloc, value))
}

/// `__ctype_b_loc`: each cell of the library's table of classes becomes the word's low 16 bits; the call gives the place of
/// the pointer to it. A refusal leaves the memory as it was.
pub fn ctype_row(
    alloc: Global,
    memory: &mut Memory,
    types: &TypeTable,
    word: u64,
) -> Result<LibOutcome, MemFault>
    requires { AreKnown (length types.now.terms) memory.old }
    ensures value { Gives (λ o. record { memory = memory.new; outcome = o }) result (ctype_row types.now memory.old word) }
    ensures err { OnErr result (memory.new ≡ memory.old) }
{
    let classes = object_at(memory, 8)?;
    let pointer = object_at(memory, 7)?;
    match (classes, pointer) {
        (Some(i), Some(place)) => ctype_set(alloc, memory, types, word % 65536, i, place),
        _ => Err(MemFault::Stop(Reason::Mismatch)),
    }
}

// The function that sets bytes.

ghost use Rattle.std.specs.Prelude.{◌≡◌, ◌<◌, ◌%◌, ◌==◌, ◌||◌, ◌++◌, [], ◌∷◌, IfOk, IfSome, OnErr, length, map, Some};
ghost use Rattle.std.specs.Option.{option_map};
ghost use Rattle.std.specs.List.{list_all};
ghost use Rattle.c_types.specs.Table.{type_of};
ghost use Rattle.c_types.specs.Paths.{part_below, type_at_path};
ghost use Rattle.ref_cells.specs.Answers.{Gives};
ghost use Rattle.ref_cells.specs.Places.{IsKnown, AreKnown};
ghost use Rattle.ref_elements.specs.Arguments.{argument, count_of};
ghost use Rattle.ref_copies.specs.Copies.{is_byte, is_union, is_free_byte, goes_through_union, is_all_bytes, byte_at};
ghost use Rattle.ref_copies.specs.Copies.{set_cells, set_parts, set_run, set_target, aimed_as, set_whole, set_at, set_row};

use c_types::table::TypeTable;
use c_types::term::{OutOfMemory, PathStep, Term, TypeId};
use ref_cells::cells::{Cell, Cells, MemFault, Path, Reason, Value, copy_path};
use ref_cells::instance::Instance;
use ref_cells::numbers::{converted, reduced};
use ref_cells::wholes::one;
use ref_elements::arguments::{count, scalar};
use ref_elements::objects::is_start;
use ref_elements::outcome::{LibOutcome, gives};
use ref_elements::parts::{parts_of, push_part, puts, within};
use ref_elements::runs::{Found, Run, element_path, found_as};
use ref_mem::memory::{Memory, blank_cells};
use ref_mem::width_along;
use std::alloc::Global;
use type_rules::members::{at_path, part_of};

// Whether a type is a byte's.
fn is_byte(types: &TypeTable, id: Option<TypeId>) -> bool
    requires { IfSome id (λ id. id.0 < length types.now.terms) }
    ensures { result ≡ is_byte (option_map (λ id. type_of types.now id.0) id) }
{
    match id {
        Some(id) => match types.term(id) {
            Term::Bool => true,
            Term::Integer { size, .. } => *size == 1,
            _ => false,
        },
        None => false,
    }
}

// A byte as what stands at a path of a type keeps it.
fn byte_at(types: &TypeTable, id: TypeId, path: &[PathStep], byte: u64) -> Cell
    requires { id.0 < length types.now.terms }
    ensures { result ≡ byte_at types.now (type_of types.now id.0) byte path.now }
{
    let width = width_along(types, one(Some(id)), path);
    match at_path(types, id, path) {
        Some(found) => Cell::Number(reduced(
            types,
            found,
            width,
            converted(types, found, i128::from(byte)),
        )),
        None => Cell::Unset,
    }
}

// Whether a path goes into a union.
fn goes_through_union(types: &TypeTable, id: Option<TypeId>, path: &[PathStep]) -> bool
    requires { IfSome id (λ id. id.0 < length types.now.terms) }
    ensures { result ≡ goes_through_union types.now (option_map (λ id. type_of types.now id.0) id) path.now }
{
    match path {
        [] => false,
        [step, rest @ ..] => is_union(types, id)
            || goes_through_union(types, part_in(types, id, *step), rest),
    }
}

fn is_union(types: &TypeTable, id: Option<TypeId>) -> bool
    requires { IfSome id (λ id. id.0 < length types.now.terms) }
    ensures { result ≡ is_union (option_map (λ id. type_of types.now id.0) id) }
{
    match id {
        Some(id) => matches!(types.term(id), Term::Union(_)),
        None => false,
    }
}

fn part_in(types: &TypeTable, id: Option<TypeId>, step: PathStep) -> Option<TypeId>
    requires { IfSome id (λ id. id.0 < length types.now.terms) }
    ensures part { option_map (λ id. type_of types.now id.0) result
        ≡ part_below types.now (option_map (λ id. type_of types.now id.0) id) step }
    ensures known { IfSome result (λ id. id.0 < length types.now.terms) }
{
    match id {
        Some(id) => part_of(types, id, step),
        None => None,
    }
}

// Whether a cell of a value is a byte outside of unions.
fn is_free_byte(types: &TypeTable, id: TypeId, path: &[PathStep]) -> bool
    requires { id.0 < length types.now.terms }
    ensures { result ≡ is_free_byte types.now (type_of types.now id.0) path.now }
{
    is_byte(types, at_path(types, id, path)) && !goes_through_union(types, Some(id), path)
}

// Whether each cell of a type is a byte outside of unions.
fn is_all_bytes(alloc: Global, types: &TypeTable, id: TypeId) -> Result<bool, OutOfMemory>
    requires { id.0 < length types.now.terms }
    ensures { IfOk result (λ b. b ≡ is_all_bytes types.now (type_of types.now id.0)) }
{
    let cells = blank_cells(alloc, types, id, false)?;
    Ok(are_all_bytes(types, id, cells.as_slice()))
}

fn are_all_bytes(types: &TypeTable, id: TypeId, cells: &[(Path, Cell)]) -> bool
    requires { id.0 < length types.now.terms }
    ensures { result ≡ list_all (λ e. is_free_byte types.now (type_of types.now id.0) e.0) cells.now }
{
    for entry in cells {
        if !is_free_byte(types, id, entry.0.as_slice()) {
            return false;
        }
    }
    true
}

// The cells with a byte in each.
fn byte_cells(
    alloc: Global,
    types: &TypeTable,
    id: TypeId,
    byte: u64,
    cells: &[(Path, Cell)],
) -> Result<Vec<(Path, Cell)>, OutOfMemory>
    requires { id.0 < length types.now.terms }
    ensures { IfOk result (λ list.
        list.items
        ≡ map (λ e. (e.0, byte_at types.now (type_of types.now id.0) byte e.0)) cells.now) }
{
    let mut list = Vec::new(alloc);
    for entry in cells {
        let path = copy_path(alloc, entry.0.as_slice())?;
        let cell = byte_at(types, id, entry.0.as_slice(), byte);
        push_cell(&mut list, path, cell)?;
    }
    Ok(list)
}

fn push_cell(list: &mut Vec<(Path, Cell)>, path: Path, cell: Cell) -> Result<(), OutOfMemory>
    ensures { IfOk result (λ _. list.new.items ≡ list.old.items ++ (path, cell) ∷ []) }
{
    match list.push((path, cell)) {
        Ok(()) => Ok(()),
        Err(_) => Err(OutOfMemory),
    }
}

// The cells of an element of which each byte is that one.
fn set_cells(alloc: Global, types: &TypeTable, id: TypeId, byte: u64) -> Result<Cells, OutOfMemory>
    requires { id.0 < length types.now.terms }
    ensures { IfOk result (λ cells. cells ≡ set_cells types.now (type_of types.now id.0) byte) }
{
    if byte == 0 {
        return blank_cells(alloc, types, id, true);
    }
    let cells = blank_cells(alloc, types, id, false)?;
    let list = byte_cells(alloc, types, id, byte, cells.as_slice())?;
    Ok(Cells::of(list))
}

// The same cells under the paths of so many elements.
fn set_parts(
    alloc: Global,
    run: &Run,
    cells: &Cells,
    n: u64,
) -> Result<Vec<(Path, Cells)>, OutOfMemory>
    ensures { IfOk result (λ parts. parts.items ≡ set_parts run.now cells.now 0 n) }
{
    let mut parts = Vec::new(alloc);
    for k in 0..n {
        let path = element_path(alloc, run, k)?;
        let copy = cells.copy(alloc)?;
        push_part(&mut parts, path, copy)?;
    }
    Ok(parts)
}

// Sets bytes of elements.
fn set_run(
    alloc: Global,
    memory: &mut Memory,
    types: &TypeTable,
    place: Cell,
    byte: u64,
    bytes: u64,
    found: &Found,
) -> Result<LibOutcome, MemFault>
    requires memory { AreKnown (length types.now.terms) memory.old }
    requires within { found.now.number < length memory.old }
    requires of { found.now.run.of.0 < length types.now.terms }
    ensures value { Gives (λ o. record { memory = memory.new; outcome = o }) result
        (set_run types.now memory.old place byte bytes found.now) }
    ensures err { OnErr result (memory.new ≡ memory.old) }
{
    if !may_set(alloc, types, found.run.of, byte)? {
        return Err(MemFault::Stop(Reason::Mismatch));
    }
    let n = parts_of(bytes, types.size_of(found.run.of))?;
    let n = within(n, found.run.room)?;
    let cells = set_cells(alloc, types, found.run.of, byte)?;
    let parts = set_parts(alloc, &found.run, &cells, n)?;
    puts(
        alloc,
        memory,
        types,
        found.number,
        found.run.of,
        parts.as_slice(),
        place,
    )
}

// Whether each byte of a type may be set to that one.
fn may_set(alloc: Global, types: &TypeTable, id: TypeId, byte: u64) -> Result<bool, OutOfMemory>
    requires { id.0 < length types.now.terms }
    ensures { IfOk result (λ b. b ≡ (byte == 0 || is_all_bytes types.now (type_of types.now id.0))) }
{
    if byte == 0 {
        Ok(true)
    } else {
        is_all_bytes(alloc, types, id)
    }
}

// A number as an unsigned character.
fn byte(arguments: &[Value], k: usize) -> u64
    ensures { result ≡ count_of (argument arguments.now k) % 256 }
{
    count(arguments, k) % 256
}

/// `memset` (C11 7.24.6.1): bytes set as whole elements, or a whole object without a type set to zero. A refusal leaves the
/// memory as it was.
pub fn set_row(
    alloc: Global,
    memory: &mut Memory,
    types: &TypeTable,
    arguments: &[Value],
) -> Result<LibOutcome, MemFault>
    requires { AreKnown (length types.now.terms) memory.old }
    ensures value { Gives (λ o. record { memory = memory.new; outcome = o }) result
        (set_row types.now memory.old (argument arguments.now 0) (argument arguments.now 1) (argument arguments.now 2)) }
    ensures err { OnErr result (memory.new ≡ memory.old) }
{
    let bytes = count(arguments, 2);
    let place = scalar(alloc, arguments, 0)?;
    if bytes == 0 {
        let value = Value::one(alloc, place)?;
        return Ok(gives(alloc, value));
    }
    let byte = byte(arguments, 1);
    set_at(alloc, memory, types, place, byte, bytes)
}

// Sets bytes at a place.
fn set_at(
    alloc: Global,
    memory: &mut Memory,
    types: &TypeTable,
    place: Cell,
    byte: u64,
    bytes: u64,
) -> Result<LibOutcome, MemFault>
    requires { AreKnown (length types.now.terms) memory.old }
    ensures value { Gives (λ o. record { memory = memory.new; outcome = o }) result
        (set_at types.now memory.old place byte bytes) }
    ensures err { OnErr result (memory.new ≡ memory.old) }
{
    match set_target(alloc, memory, types, &place, byte, bytes)? {
        Some(found) => set_run(alloc, memory, types, place, byte, bytes, &found),
        None => set_whole(alloc, memory, place),
    }
}

// The elements that are set, or none where a whole object without a type is.
fn set_target(
    alloc: Global,
    memory: &Memory,
    types: &TypeTable,
    place: &Cell,
    byte: u64,
    bytes: u64,
) -> Result<Option<Found>, MemFault>
    requires { AreKnown (length types.now.terms) memory.now }
    ensures target { Gives (λ f. f) result (set_target types.now memory.now place.now byte bytes) }
    ensures within { IfOk result (λ f. IfSome f (λ found. found.number < length memory.now)) }
    ensures known { IfOk result (λ f. IfSome f (λ found. found.run.of.0 < length types.now.terms)) }
{
    match place {
        Cell::Null => Err(MemFault::Stop(Reason::NullUse)),
        Cell::Pointer {
            instance,
            path,
            past,
        } => match memory.instances().get(*instance as usize) {
            Some(inst) => {
                if inst.live {
                    aimed(
                        alloc,
                        types,
                        *instance,
                        inst,
                        path.as_slice(),
                        *past,
                        byte,
                        bytes,
                    )
                } else {
                    Err(MemFault::Stop(Reason::DeadUse))
                }
            }
            None => Err(MemFault::Stop(Reason::Mismatch)),
        },
        Cell::Unset | Cell::Number(_) | Cell::Function(_) => Err(MemFault::Stop(Reason::Mismatch)),
    }
}

fn aimed(
    alloc: Global,
    types: &TypeTable,
    number: u32,
    inst: &Instance,
    path: &[PathStep],
    past: bool,
    byte: u64,
    bytes: u64,
) -> Result<Option<Found>, MemFault>
    requires { IsKnown (length types.now.terms) inst.now.ty }
    ensures target { let place = Cell.Pointer number path.now past in
        Gives (λ f. f) result (aimed_as types.now place byte bytes inst.now inst.now.ty) }
    ensures within { IfOk result (λ f. IfSome f (λ found. found.number ≡ number)) }
    ensures known { IfOk result (λ f. IfSome f (λ found. found.run.of.0 < length types.now.terms)) }
{
    match inst.ty {
        None => {
            if byte == 0 && bytes == inst.bytes && is_start(path) && !past {
                Ok(None)
            } else {
                Err(MemFault::Stop(Reason::Mismatch))
            }
        }
        Some(id) => {
            let found = found_as(alloc, types, number, inst, path, past, Some(id))?;
            Ok(Some(found))
        }
    }
}

// Sets a whole object to zero.
fn set_whole(alloc: Global, memory: &mut Memory, place: Cell) -> Result<LibOutcome, MemFault>
    ensures value { Gives (λ o. record { memory = memory.new; outcome = o }) result (set_whole memory.old place) }
    ensures err { OnErr result (memory.new ≡ memory.old) }
{
    match place {
        Cell::Pointer {
            instance,
            path,
            past,
        } => {
            if (instance as usize) < memory.instances().len() {
                let value = Value::one(
                    alloc,
                    Cell::Pointer {
                        instance,
                        path,
                        past,
                    },
                )?;
                memory.set_zero(instance);
                Ok(gives(alloc, value))
            } else {
                Err(MemFault::Stop(Reason::Mismatch))
            }
        }
        Cell::Unset | Cell::Number(_) | Cell::Null | Cell::Function(_) => Err(MemFault::Stop(
            Reason::Mismatch,
        )),
    }
}

// What a write leaves.

ghost use Rattle.std.specs.Prelude.{◌≡◌, ◌<◌, Some, Ok, IfSome, IfOk, OnOk, OnErr, All, length, map};
ghost use Rattle.c_types.specs.Table.{type_of};
ghost use Rattle.c_types.specs.Trees.{PointerTo, VoidType};
ghost use Rattle.ref_cells.specs.Answers.{Gives};
ghost use Rattle.ref_cells.specs.Wholes.{shape_in, IsOver};
ghost use Rattle.ref_cells.specs.Places.{IsKnown, AreKnown};
ghost use Rattle.ref_mem.specs.Writes.{width_at, width_along, kept_cell, kept, put_all, with_parts, with_value, type_or};
ghost use Rattle.ref_mem.specs.Writes.{typed_as, write_found, write, part_in, part_found, character_part, kept_parts};
ghost use Rattle.ref_mem.specs.Writes.{initialised};

use c_types::table::TypeTable;
use c_types::term::{OutOfMemory, PathStep, Term, TypeId};
use ref_cells::cells::{Cell, Cells, MemFault, Path, Reason, Value, copy_path, push_entry};
use ref_cells::fill::Filling;
use ref_cells::instance::Instance;
use ref_cells::numbers::{converted, reduced};
use ref_cells::places::{reach, reach_character, reach_pointer};
use ref_cells::wholes::{Whole, one, part_in, whole_as, whole_of};
use std::alloc::Global;
use type_rules::members::member_width;

// The width of a step, where it goes to a bit-field.
fn width_at(types: &TypeTable, whole: Option<Whole>, step: PathStep) -> Option<u8>
    requires { IfSome whole (IsOver (length types.now.terms)) }
    ensures { result ≡ width_at types.now (shape_in types.now whole) step }
{
    match whole {
        Some(Whole::One(id)) => match step {
            PathStep::Member(k) => member_width(types, id, k),
            PathStep::Index(_) => None,
        },
        Some(Whole::Many(_, _)) => None,
        None => None,
    }
}

/// The width of what stands at the end of a path, where that is a bit-field (C11 6.7.2.1p9).
pub fn width_along(types: &TypeTable, whole: Option<Whole>, path: &[PathStep]) -> Option<u8>
    requires { IfSome whole (IsOver (length types.now.terms)) }
    ensures { result ≡ width_along types.now (shape_in types.now whole) path.now }
{
    match path {
        [] => None,
        [step] => width_at(types, whole, *step),
        [step, rest @ ..] => width_along(types, one(part_in(types, whole, *step)), rest),
    }
}

// A cell as it is kept in a scalar.
fn kept_cell(
    alloc: Global,
    types: &TypeTable,
    found: TypeId,
    width: Option<u8>,
    cell: &Cell,
) -> Result<Cell, OutOfMemory>
    requires { found.0 < length types.now.terms }
    ensures { IfOk result (λ kept. kept ≡ kept_cell (type_of types.now found.0) width cell.now) }
{
    match cell {
        Cell::Number(n) => Ok(Cell::Number(reduced(
            types,
            found,
            width,
            converted(types, found, *n),
        ))),
        _ => cell.copy(alloc),
    }
}

// The cells of a scalar as they are kept.
fn kept_cells(
    alloc: Global,
    types: &TypeTable,
    found: TypeId,
    width: Option<u8>,
    cells: &[(Path, Cell)],
) -> Result<Vec<(Path, Cell)>, OutOfMemory>
    requires { found.0 < length types.now.terms }
    ensures { IfOk result (λ list. list.items ≡ map (λ e. (e.0, kept_cell (type_of types.now found.0) width e.1)) cells.now) }
{
    let mut list = Vec::new(alloc);
    for entry in cells {
        let path = copy_path(alloc, entry.0.as_slice())?;
        let cell = kept_cell(alloc, types, found, width, &entry.1)?;
        push_entry(&mut list, path, cell)?;
    }
    Ok(list)
}

// The cells of a value as they are kept at a place.
fn kept(
    alloc: Global,
    types: &TypeTable,
    found: TypeId,
    width: Option<u8>,
    value: &Cells,
) -> Result<Cells, OutOfMemory>
    requires { found.0 < length types.now.terms }
    ensures { IfOk result (λ cells. cells ≡ kept (type_of types.now found.0) width value.now) }
{
    match types.term(found) {
        Term::Structure(_) | Term::Union(_) => value.copy(alloc),
        _ => {
            let list = kept_cells(alloc, types, found, width, value.as_slice())?;
            Ok(Cells::of(list))
        }
    }
}

// Cells with those of several parts put there.
fn put_parts(
    filling: &Filling<'_>,
    whole: Option<Whole>,
    parts: &[(Path, Cells)],
    cells: &Cells,
) -> Result<Cells, OutOfMemory>
    requires { IfSome whole (IsOver (length filling.now.types.now.terms)) }
    ensures { let table = filling.now.types.now in
        IfOk result (λ all. all ≡ put_all table filling.now.marked (shape_in table whole) parts.now cells.now) }
{
    let mut all = cells.copy(filling.alloc)?;
    for part in parts {
        all.put(filling, whole, part.0.as_slice(), &part.1)?;
    }
    Ok(all)
}

// The type of what has none.
fn type_or(id: TypeId, ty: Option<TypeId>) -> Option<TypeId>
    ensures { result ≡ type_or id ty }
{
    match ty {
        Some(old) => Some(old),
        None => Some(id),
    }
}

/// Puts several parts into an instance, which gets a type where it has none. Want of memory leaves it as it was.
pub(crate) fn put_all(
    alloc: Global,
    types: &TypeTable,
    inst: &mut Instance,
    id: TypeId,
    parts: &[(Path, Cells)],
) -> Result<(), OutOfMemory>
    requires known { IsKnown (length types.now.terms) inst.old.ty }
    requires id { id.0 < length types.now.terms }
    ensures ok { OnOk result (inst.new ≡ with_parts types.now parts.now (typed_as id inst.old)) }
    ensures err { OnErr result (inst.new ≡ inst.old) }
{
    let ty = type_or(id, inst.ty);
    let whole = whole_as(types, inst, ty);
    let filling = Filling {
        alloc,
        types,
        marked: inst.zero,
    };
    let cells = put_parts(&filling, whole, parts, &inst.cells)?;
    inst.ty = ty;
    inst.cells = cells;
    Ok(())
}

// Puts a value at a path of an instance.
fn write_in(
    alloc: Global,
    types: &TypeTable,
    inst: &mut Instance,
    path: &[PathStep],
    found: TypeId,
    value: &Cells,
) -> Result<(), OutOfMemory>
    requires inst { IsKnown (length types.now.terms) inst.old.ty }
    requires found { found.0 < length types.now.terms }
    ensures ok { OnOk result
        (inst.new ≡ with_value types.now inst.old path.now (type_of types.now found.0) value.now) }
    ensures err { OnErr result (inst.new ≡ inst.old) }
{
    let whole = whole_of(types, inst);
    let kept = kept(alloc, types, found, width_along(types, whole, path), value)?;
    let filling = Filling {
        alloc,
        types,
        marked: inst.zero,
    };
    inst.cells.put(&filling, whole, path, &kept)
}

// Puts a value at a place where that type is found.
fn write_at(
    alloc: Global,
    types: &TypeTable,
    memory: &mut Vec<Instance>,
    place: &Cell,
    found: TypeId,
    value: &Value,
) -> Result<(), MemFault>
    requires memory { AreKnown (length types.now.terms) memory.old.items }
    requires found { found.0 < length types.now.terms }
    ensures value { Gives (λ _. memory.new.items) result
        (write_found types.now memory.old.items place.now value.now.cells (Ok (type_of types.now found.0))) }
    ensures err { OnErr result (memory.new.items ≡ memory.old.items) }
    ensures long { length memory.new.items ≡ length memory.old.items }
{
    match place {
        Cell::Pointer { instance, path, .. } => {
            let i = *instance as usize;
            if i < memory.len() {
                write_in(
                    alloc,
                    types,
                    &mut memory[i],
                    path.as_slice(),
                    found,
                    &value.cells,
                )?;
                Ok(())
            } else {
                Err(MemFault::Stop(Reason::Mismatch))
            }
        }
        _ => Err(MemFault::Stop(Reason::Mismatch)),
    }
}

/// Puts a value of a type at a place. A refusal leaves the memory as it was.
#[tactic(auto, unfolding(crate::specs::Writes::write))]
pub(crate) fn write(
    alloc: Global,
    types: &TypeTable,
    memory: &mut Vec<Instance>,
    place: &Cell,
    ty: TypeId,
    value: &Value,
) -> Result<(), MemFault>
    requires memory { AreKnown (length types.now.terms) memory.old.items }
    requires ty { ty.0 < length types.now.terms }
    ensures value { Gives (λ _. memory.new.items) result
        (write types.now memory.old.items place.now (type_of types.now ty.0) value.now) }
    ensures err { OnErr result (memory.new.items ≡ memory.old.items) }
    ensures long { length memory.new.items ≡ length memory.old.items }
{
    let found = reach(types, memory.as_slice(), place, ty)?;
    write_at(alloc, types, memory, place, found, value)
}

/// Puts a pointer at a place. A refusal leaves the memory as it was.
#[tactic(auto, unfolding(crate::specs::Writes::write))]
pub(crate) fn write_pointer(
    alloc: Global,
    types: &TypeTable,
    memory: &mut Vec<Instance>,
    place: &Cell,
    value: &Value,
) -> Result<(), MemFault>
    requires { AreKnown (length types.now.terms) memory.old.items }
    ensures value { Gives (λ _. memory.new.items) result
        (write types.now memory.old.items place.now (PointerTo VoidType) value.now) }
    ensures err { OnErr result (memory.new.items ≡ memory.old.items) }
    ensures long { length memory.new.items ≡ length memory.old.items }
{
    let found = reach_pointer(types, memory.as_slice(), place)?;
    write_at(alloc, types, memory, place, found, value)
}

/// Puts several parts into an instance. Want of memory leaves it as it was.
pub(crate) fn put_typed(
    alloc: Global,
    types: &TypeTable,
    inst: &mut Instance,
    parts: &[(Path, Cells)],
) -> Result<(), OutOfMemory>
    requires { IsKnown (length types.now.terms) inst.old.ty }
    ensures ok { OnOk result (inst.new ≡ with_parts types.now parts.now inst.old) }
    ensures err { OnErr result (inst.new ≡ inst.old) }
{
    let whole = whole_of(types, inst);
    let filling = Filling {
        alloc,
        types,
        marked: inst.zero,
    };
    let cells = put_parts(&filling, whole, parts, &inst.cells)?;
    inst.cells = cells;
    Ok(())
}

// A character as it is kept at a path of an instance, under that path.
fn character_at(
    alloc: Global,
    types: &TypeTable,
    inst: &Instance,
    path: &[PathStep],
    found: TypeId,
    c: i128,
) -> Result<(Path, Cells), MemFault>
    requires inst { IsKnown (length types.now.terms) inst.now.ty }
    requires found { found.0 < length types.now.terms }
    ensures { Gives (λ part. part) result (part_in types.now (Some inst.now) path.now (type_of types.now found.0) c) }
{
    let width = width_along(types, whole_of(types, inst), path);
    let one = Cells::one(alloc, Cell::Number(c))?;
    let cells = kept(alloc, types, found, width, &one)?;
    let path = copy_path(alloc, path)?;
    Ok((path, cells))
}

// A character as a part of the instance of a place where that type is found.
fn character_found(
    alloc: Global,
    types: &TypeTable,
    memory: &[Instance],
    place: &Cell,
    found: TypeId,
    c: i128,
) -> Result<(Path, Cells), MemFault>
    requires memory { AreKnown (length types.now.terms) memory.now }
    requires found { found.0 < length types.now.terms }
    ensures { Gives (λ part. part) result (part_found types.now memory.now place.now c (Ok (type_of types.now found.0))) }
{
    match place {
        Cell::Pointer { instance, path, .. } => match memory.get(*instance as usize) {
            Some(inst) => character_at(alloc, types, inst, path.as_slice(), found, c),
            None => Err(MemFault::Stop(Reason::Mismatch)),
        },
        _ => Err(MemFault::Stop(Reason::Mismatch)),
    }
}

/// A character as a part of the instance of a place.
#[tactic(auto, unfolding(crate::specs::Writes::character_part))]
pub(crate) fn character_part(
    alloc: Global,
    types: &TypeTable,
    memory: &[Instance],
    place: &Cell,
    c: i128,
) -> Result<(Path, Cells), MemFault>
    requires { AreKnown (length types.now.terms) memory.now }
    ensures { Gives (λ part. part) result (character_part types.now memory.now place.now c) }
{
    let found = reach_character(types, memory, place)?;
    character_found(alloc, types, memory, place, found, c)
}

/// A part of an initialiser: its path in the object, the type there, and the cells that it gets.
#[derive(Drop)]
pub struct Initial {
    pub path: Path,
    pub ty: TypeId,
    pub cells: Cells,
}

// The parts of an initialiser as they are kept.
fn kept_parts(
    alloc: Global,
    types: &TypeTable,
    whole: Option<Whole>,
    parts: &[Initial],
) -> Result<Vec<(Path, Cells)>, OutOfMemory>
    requires whole { IfSome whole (IsOver (length types.now.terms)) }
    requires parts { All (λ part. part.ty.0 < length types.now.terms) parts.now }
    ensures { IfOk result (λ list. list.items ≡ kept_parts types.now (shape_in types.now whole) parts.now) }
{
    let mut list = Vec::new(alloc);
    for part in parts {
        let width = width_along(types, whole, part.path.as_slice());
        let cells = kept(alloc, types, part.ty, width, &part.cells)?;
        let path = copy_path(alloc, part.path.as_slice())?;
        match list.push((path, cells)) {
            Ok(()) => {}
            Err(_) => return Err(OutOfMemory),
        }
    }
    Ok(list)
}

/// Initialises an instance. Want of memory leaves it as it was.
pub fn initialise(
    alloc: Global,
    types: &TypeTable,
    inst: &mut Instance,
    clears: bool,
    parts: &[Initial],
) -> Result<(), OutOfMemory>
    requires inst { IsKnown (length types.now.terms) inst.old.ty }
    requires parts { All (λ part. part.ty.0 < length types.now.terms) parts.now }
    ensures ok { OnOk result (inst.new ≡ initialised types.now clears parts.now inst.old) }
    ensures err { OnErr result (inst.new ≡ inst.old) }
{
    let whole = whole_of(types, inst);
    let parts = kept_parts(alloc, types, whole, parts)?;
    if clears {
        let filling = Filling {
            alloc,
            types,
            marked: true,
        };
        let none = Cells::none(alloc);
        let cells = put_parts(&filling, whole, parts.as_slice(), &none)?;
        inst.zero = true;
        inst.cells = cells;
        return Ok(());
    }
    put_typed(alloc, types, inst, parts.as_slice())
}

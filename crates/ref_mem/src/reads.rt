// What a read gives.

ghost use Rattle.std.specs.Prelude.{◌≡◌, ◌+◌, ◌<◌, ◌^◌, Some, None, true, Bool, IfOk, IfSome, MatchOption, length};
ghost use Rattle.c_types.specs.Table.{type_of};
ghost use Rattle.ref_cells.specs.Answers.{Gives, Agrees};
ghost use Rattle.ref_cells.specs.Cells.{seen};
ghost use Rattle.ref_cells.specs.Order.{IsOrdered};
ghost use Rattle.ref_cells.specs.Wholes.{shape_in, IsOver};
ghost use Rattle.ref_cells.specs.Places.{is_alike, IsKnown, AreKnown};
ghost use Rattle.ref_cells.specs.Values.{goes_on};
ghost use Rattle.type_rules.specs.Kinds.{character};
ghost use Rattle.ref_mem.specs.Reads.{opened, content, scalar_value, value_of, read_in, read, number_read, read_character};

use c_types::table::TypeTable;
use c_types::term::{OutOfMemory, PathStep, Term, TypeId};
use ref_cells::cells::{Cell, Cells, MemFault, Path, Reason, Value};
use ref_cells::fill::{Filling, cell_in, filled};
use ref_cells::instance::Instance;
use ref_cells::numbers::{as_character, converted};
use ref_cells::order::under;
use ref_cells::places::{reach, reach_character};
use ref_cells::putting::goes_on;
use ref_cells::wholes::{Whole, one, part_in, whole_of};
use std::alloc::Global;

// The cells listed under a path, or none where it goes through a member that isn't active.
fn opened<'a>(
    types: &TypeTable,
    whole: Option<Whole>,
    path: &[PathStep],
    cells: &'a [(Path, Cell)],
    depth: usize,
) -> Option<&'a [(Path, Cell)]>
    requires whole { IfSome whole (IsOver (length types.now.terms)) }
    requires ordered { IsOrdered (seen depth cells.now) }
    requires fits { depth + length path.now < 2 ^ 64 }
    ensures cells { let found = opened types.now (shape_in types.now whole) path.now (seen depth cells.now) in
        MatchOption result (found ≡ None) (λ part. found ≡ Some (seen (depth + length path.now) part.now)) }
    ensures ordered { IfSome result (λ part. IsOrdered (seen (depth + length path.now) part.now)) }
{
    match path {
        [] => Some(cells),
        [step, rest @ ..] => {
            if goes_on(types, whole, *step, cells, depth) {
                let part = one(part_in(types, whole, *step));
                opened(types, part, rest, under(cells, depth, *step), depth + 1)
            } else {
                None
            }
        }
    }
}

// A scalar's value as one of a type.
fn scalar_value(alloc: Global, types: &TypeTable, ty: TypeId, cell: Cell) -> Result<Value, MemFault>
    requires { ty.0 < length types.now.terms }
    ensures { Gives (λ v. v) result (scalar_value (type_of types.now ty.0) cell) }
{
    match cell {
        Cell::Unset => Err(MemFault::Stop(Reason::Unset)),
        Cell::Number(n) => Ok(Value::one(alloc, Cell::Number(converted(types, ty, n)))?),
        Cell::Null => Ok(Value::one(alloc, Cell::Null)?),
        Cell::Pointer {
            instance,
            path,
            past,
        } => Ok(Value::one(
            alloc,
            Cell::Pointer {
                instance,
                path,
                past,
            },
        )?),
        Cell::Function(key) => Ok(Value::one(alloc, Cell::Function(key))?),
    }
}

// The value of a type that is found, as a value of a type like it.
fn value_of(
    filling: &Filling<'_>,
    found: TypeId,
    ty: TypeId,
    cells: &[(Path, Cell)],
    depth: usize,
) -> Result<Value, MemFault>
    requires found { found.0 < length filling.now.types.now.terms }
    requires ty { ty.0 < length filling.now.types.now.terms }
    requires ordered { IsOrdered (seen depth cells.now) }
    ensures { let table = filling.now.types.now in
        Gives (λ v. v) result
        (value_of table filling.now.marked (type_of table found.0) (type_of table ty.0) (seen depth cells.now)) }
{
    match filling.types.term(found) {
        Term::Structure(_) | Term::Union(_) => {
            let list = filled(filling, found, cells, depth)?;
            Ok(Value {
                cells: Cells::of(list),
            })
        }
        _ => {
            let cell = cell_in(filling, found, cells)?;
            scalar_value(filling.alloc, filling.types, ty, cell)
        }
    }
}

/// All cells of a part at a path of an instance, or none where the path goes through a member that isn't active.
pub(crate) fn content(
    alloc: Global,
    types: &TypeTable,
    inst: &Instance,
    path: &[PathStep],
    ty: TypeId,
) -> Result<Option<Cells>, OutOfMemory>
    requires inst { IsKnown (length types.now.terms) inst.now.ty }
    requires ty { ty.0 < length types.now.terms }
    ensures { IfOk result (λ cells. cells ≡ content types.now inst.now path.now (type_of types.now ty.0)) }
{
    let whole = whole_of(types, inst);
    let filling = Filling {
        alloc,
        types,
        marked: inst.zero,
    };
    match opened(types, whole, path, inst.cells.as_slice(), 0) {
        Some(cells) => {
            let list = filled(&filling, ty, cells, path.len())?;
            Ok(Some(Cells::of(list)))
        }
        None => Ok(None),
    }
}

// What is read at a path of an instance.
fn read_in(
    alloc: Global,
    types: &TypeTable,
    inst: &Instance,
    path: &[PathStep],
    found: TypeId,
    ty: TypeId,
) -> Result<Value, MemFault>
    requires inst { IsKnown (length types.now.terms) inst.now.ty }
    requires found { found.0 < length types.now.terms }
    requires ty { ty.0 < length types.now.terms }
    ensures { Gives (λ v. v) result
        (read_in types.now (Some inst.now) path.now (type_of types.now found.0) (type_of types.now ty.0)) }
{
    let whole = whole_of(types, inst);
    let filling = Filling {
        alloc,
        types,
        marked: inst.zero,
    };
    match opened(types, whole, path, inst.cells.as_slice(), 0) {
        Some(cells) => value_of(&filling, found, ty, cells, path.len()),
        None => Err(MemFault::Stop(Reason::Mismatch)),
    }
}

/// The value of a type at a place.
#[tactic(auto, unfolding(crate::specs::Reads::read))]
pub(crate) fn read(
    alloc: Global,
    types: &TypeTable,
    memory: &[Instance],
    place: &Cell,
    ty: TypeId,
) -> Result<Value, MemFault>
    requires memory { AreKnown (length types.now.terms) memory.now }
    requires ty { ty.0 < length types.now.terms }
    ensures { Gives (λ v. v) result (read types.now memory.now place.now (type_of types.now ty.0)) }
{
    let found = reach(types, memory, place, ty)?;
    match place {
        Cell::Pointer { instance, path, .. } => match memory.get(*instance as usize) {
            Some(inst) => read_in(alloc, types, inst, path.as_slice(), found, ty),
            None => Err(MemFault::Stop(Reason::Mismatch)),
        },
        _ => Err(MemFault::Stop(Reason::Mismatch)),
    }
}

// The character that a cell is.
fn number_of(cell: &Cell) -> Result<i128, Reason>
    ensures { Agrees (λ n. n) result (number_read (scalar_value character cell.now)) }
{
    match cell {
        Cell::Unset => Err(Reason::Unset),
        Cell::Number(n) => Ok(as_character(*n)),
        Cell::Null | Cell::Pointer { .. } | Cell::Function(_) => Err(Reason::Mismatch),
    }
}

// The character of which these cells are listed.
fn character_of(
    types: &TypeTable,
    marked: bool,
    found: TypeId,
    cells: &[(Path, Cell)],
    depth: usize,
) -> Result<i128, Reason>
    requires found { found.0 < length types.now.terms }
    requires alike { is_alike (type_of types.now found.0) character ≡ true }
    ensures { Agrees (λ n. n) result
        (number_read (value_of types.now marked (type_of types.now found.0) character (seen depth cells.now))) }
{
    match types.term(found) {
        Term::Bool | Term::Integer { .. } => match cells {
            [entry, ..] => number_of(&entry.1),
            [] => { if marked { Ok(0) } else { Err(Reason::Unset) } }
        },
        _ => Err(Reason::Mismatch),
    }
}

// The character at a path of an instance.
fn character_in(
    types: &TypeTable,
    inst: &Instance,
    path: &[PathStep],
    found: TypeId,
) -> Result<i128, Reason>
    requires inst { IsKnown (length types.now.terms) inst.now.ty }
    requires found { found.0 < length types.now.terms }
    requires alike { is_alike (type_of types.now found.0) character ≡ true }
    ensures { Agrees (λ n. n) result
        (number_read (read_in types.now (Some inst.now) path.now (type_of types.now found.0) character)) }
{
    let whole = whole_of(types, inst);
    match opened(types, whole, path, inst.cells.as_slice(), 0) {
        Some(cells) => character_of(types, inst.zero, found, cells, path.len()),
        None => Err(Reason::Mismatch),
    }
}

/// The character at a place.
#[tactic(auto, unfolding(crate::specs::Reads::read, crate::specs::Reads::read_character))]
pub(crate) fn read_character(
    types: &TypeTable,
    memory: &[Instance],
    place: &Cell,
) -> Result<i128, Reason>
    requires { AreKnown (length types.now.terms) memory.now }
    ensures { Agrees (λ n. n) result (read_character types.now memory.now place.now) }
{
    let found = reach_character(types, memory, place)?;
    match place {
        Cell::Pointer { instance, path, .. } => match memory.get(*instance as usize) {
            Some(inst) => character_in(types, inst, path.as_slice(), found),
            None => Err(Reason::Mismatch),
        },
        _ => Err(Reason::Mismatch),
    }
}

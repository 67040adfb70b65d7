// Parts of an instance, and what putting them leaves.

ghost use Rattle.std.specs.Prelude.{◌≡◌, ◌<◌, ◌++◌, [], ◌∷◌, IfOk, OnOk, OnErr, length};
ghost use Rattle.c_types.specs.Table.{type_of};
ghost use Rattle.ref_cells.specs.Answers.{Gives, Agrees};
ghost use Rattle.ref_cells.specs.Cells.{joined};
ghost use Rattle.ref_cells.specs.Places.{AreKnown};
ghost use Rattle.ref_elements.specs.Outcomes.{pointers_in, place_in};
ghost use Rattle.ref_elements.specs.Runs.{content_at, parts_of, within};
ghost use Rattle.ref_elements.specs.Parts.{pointers_of, puts};
ghost use Rattle.ref_elements.specs.Types.{same_type};

use crate::outcome::{LibOutcome, is_pointing, push_pair, stores_and_gives};
use crate::runs::{Found, element_path};
use c_types::table::TypeTable;
use c_types::term::{OutOfMemory, PathStep, TypeId};
use pta_base::Listing;
use ref_cells::cells::{Cell, Cells, MemFault, Path, Reason, Value};
use ref_mem::memory::Memory;
use std::alloc::Global;

/// Whether two ids name one type.
pub fn same_type(types: &TypeTable, a: TypeId, b: TypeId) -> bool
    requires left { a.0 < length types.now.terms }
    requires right { b.0 < length types.now.terms }
    ensures { result ≡ same_type (type_of types.now a.0) (type_of types.now b.0) }
{
    types.same(a, b)
}

/// All cells of an element, or none where its path goes through a member that isn't active.
pub fn content_at(
    alloc: Global,
    memory: &Memory,
    types: &TypeTable,
    found: &Found,
    k: u64,
) -> Result<Option<Cells>, OutOfMemory>
    requires memory { AreKnown (length types.now.terms) memory.now }
    requires within { found.now.number < length memory.now }
    requires of { found.now.run.of.0 < length types.now.terms }
    ensures { IfOk result (λ c. c ≡ content_at types.now memory.now found.now k) }
{
    let path = element_path(alloc, &found.run, k)?;
    memory.content(types, found.number, path.as_slice(), found.run.of)
}

/// One part more.
pub fn push_part(
    parts: &mut Vec<(Path, Cells)>,
    path: Path,
    cells: Cells,
) -> Result<(), OutOfMemory>
    ensures { IfOk result (λ _. parts.new.items ≡ parts.old.items ++ (path, cells) ∷ []) }
{
    match parts.push((path, cells)) {
        Ok(()) => Ok(()),
        Err(_) => Err(OutOfMemory),
    }
}

/// One part alone.
pub fn single(alloc: Global, path: Path, cells: Cells) -> Result<Vec<(Path, Cells)>, OutOfMemory>
    ensures { IfOk result (λ parts. parts.items ≡ (path, cells) ∷ []) }
{
    let mut parts = Vec::new(alloc);
    push_part(&mut parts, path, cells)?;
    Ok(parts)
}

// The place of a cell under a path.
fn place_under(
    alloc: Global,
    instance: u32,
    front: &[PathStep],
    rest: &[PathStep],
) -> Result<Cell, OutOfMemory>
    ensures { IfOk result (λ cell. cell ≡ place_in instance (front.now ++ rest.now)) }
{
    let mut steps = Vec::from_slice(alloc, front)?;
    steps.extend_from_slice(rest)?;
    Ok(Cell::Pointer {
        instance,
        path: Listing::of(steps),
        past: false,
    })
}

// The pointers among the cells of a part.
fn push_pointers(
    alloc: Global,
    list: &mut Vec<(Cell, Cell)>,
    instance: u32,
    front: &[PathStep],
    cells: &[(Path, Cell)],
) -> Result<(), OutOfMemory>
    ensures { OnOk result (list.new.items ≡ list.old.items ++ pointers_in instance (joined front.now cells.now)) }
{
    for entry in cells {
        if is_pointing(&entry.1) {
            let place = place_under(alloc, instance, front, entry.0.as_slice())?;
            let cell = entry.1.copy(alloc)?;
            push_pair(list, place, cell)?;
        }
    }
    Ok(())
}

/// The pointers that parts put into an instance, each with its place.
pub fn pointers_of(
    alloc: Global,
    instance: u32,
    parts: &[(Path, Cells)],
) -> Result<Listing<(Cell, Cell)>, OutOfMemory>
    ensures { IfOk result (λ list. list ≡ pointers_of instance parts.now) }
{
    let mut list = Vec::new(alloc);
    for part in parts {
        push_pointers(
            alloc,
            &mut list,
            instance,
            part.0.as_slice(),
            part.1.as_slice(),
        )?;
    }
    Ok(Listing::of(list))
}

/// Puts parts into an instance, which gets that type where it has none; the call gives a value. Want of memory leaves the
/// memory as it was.
pub fn puts(
    alloc: Global,
    memory: &mut Memory,
    types: &TypeTable,
    number: u32,
    id: TypeId,
    parts: &[(Path, Cells)],
    value: Cell,
) -> Result<LibOutcome, MemFault>
    requires memory { AreKnown (length types.now.terms) memory.old }
    requires within { number < length memory.old }
    requires id { id.0 < length types.now.terms }
    ensures value { Gives (λ o. record { memory = memory.new; outcome = o }) result
        (puts types.now memory.old number id parts.now value) }
    ensures err { OnErr result (memory.new ≡ memory.old) }
{
    let stores = pointers_of(alloc, number, parts)?;
    let value = Value::one(alloc, value)?;
    memory.put_all(types, number, id, parts)?;
    Ok(stores_and_gives(value, stores))
}

/// How many elements of a size so many bytes are: Mismatch where there is no size, it is 0, or they are no whole ones.
pub fn parts_of(bytes: u64, size: Option<u64>) -> Result<u64, Reason>
    ensures { Agrees (λ n. n) result (parts_of bytes size) }
{
    match size {
        None => Err(Reason::Mismatch),
        Some(size) => {
            if size == 0 || bytes % size != 0 {
                Err(Reason::Mismatch)
            } else {
                Ok(bytes / size)
            }
        }
    }
}

/// So many elements where they lie in an array from a place on, else OutOfRange.
pub fn within(n: u64, room: u64) -> Result<u64, Reason>
    ensures { Agrees (λ n. n) result (within n room) }
{
    if n <= room {
        Ok(n)
    } else {
        Err(Reason::OutOfRange)
    }
}

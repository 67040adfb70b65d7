// Where pointers of each type stand among those that were handed over.

ghost use Rattle.std.specs.Prelude.{◌≡◌, ℕ, ◌+◌, ◌==◌, ◌&&◌, [], ◌∷◌, ◌++◌, List, Some, IfOk, OnOk, OnErr, if◌then◌else◌};
ghost use Rattle.c_types.specs.declared.term.TypeId.{TypeId};
ghost use Rattle.c_types.specs.Table.{Table};
ghost use Rattle.obj_space.specs.Found.{kept_at};
ghost use Rattle.ref_cells.specs.declared.cells.Cell.{Cell};
ghost use Rattle.ref_start.specs.Handed.{count_at, kept_cell, ArePlaces, AreRead, IsOneMore, IsAsMany};

use c_types::table::TypeTable;
use c_types::term::{OutOfMemory, TypeId};
use ref_cells::cells::Cell;
use std::alloc::Global;
use std::collections::BTreeMap;

// How many pointers can be handed over. Reading more counts as want of memory.
const MOST: usize = 4294967295;

/// What is kept of the pointers that were handed over between a program and those who call its entries, so that a step needn't
/// look through them all: how many of them were read, and for the first id of each type how many of these were handed over under
/// the type, and the place of each.
#[derive(Drop)]
pub struct HandedPlaces {
    pub read: usize,
    pub counts: BTreeMap<u32, usize>,
    pub places: BTreeMap<(u32, usize), usize>,
}

/// What is kept where nothing was handed over. It takes no memory.
pub fn no_places(alloc: Global) -> HandedPlaces
    ensures whole { (table : Table) → ArePlaces table [] result }
    ensures read { (table : Table) → AreRead table [] result }
{
    let counts = BTreeMap::new(alloc);
    let places = BTreeMap::new(alloc);
    HandedPlaces {
        read: 0,
        counts,
        places,
    }
}

/// How many places are kept for an id. It takes no memory.
pub fn count_at(kept: &HandedPlaces, id: TypeId) -> usize
    ensures { result ≡ count_at kept.now.counts id.0 }
{
    kept.counts.get(&id.0).copied().unwrap_or(0)
}

/// The cell in the k-th place that is kept for an id, and null where there is none.
pub fn kept_cell(
    alloc: Global,
    handed: &[(TypeId, Cell)],
    kept: &HandedPlaces,
    id: TypeId,
    k: usize,
) -> Result<Cell, OutOfMemory>
    ensures { IfOk result (λ cell. cell ≡ kept_cell handed.now kept.now id.0 k) }
{
    let Some(at) = place_at(&kept.places, id.0, k) else {
        return Ok(Cell::Null);
    };
    match handed.get(at) {
        Some(entry) => {
            let cell = entry.1.copy(alloc)?;
            Ok(cell)
        }
        None => Ok(Cell::Null),
    }
}

// The k-th place that is kept for an id.
fn place_at(places: &BTreeMap<(u32, usize), usize>, id: u32, k: usize) -> Option<usize>
    ensures { result ≡ kept_at places.now id k }
{
    let pair = (id, k);
    places.get(&pair).copied()
}

// Keeps the k-th place for an id. At `Err` nothing changes.
fn put_place(
    places: &mut BTreeMap<(u32, usize), usize>,
    id: u32,
    k: usize,
    at: usize,
) -> Result<(), OutOfMemory>
    ensures ok { OnOk result ((other j : ℕ) → kept_at places.new other j
        ≡ (if id == other && k == j then Some at else kept_at places.old other j)) }
    ensures err { OnErr result ((other j : ℕ) → kept_at places.new other j ≡ kept_at places.old other j) }
{
    match places.insert((id, k), at) {
        Ok(_) => Ok(()),
        Err(_) => Err(OutOfMemory),
    }
}

// Keeps how many places are kept for an id. At `Err` nothing changes.
fn put_count(counts: &mut BTreeMap<u32, usize>, id: u32, count: usize) -> Result<(), OutOfMemory>
    ensures ok { OnOk result ((other : ℕ) → count_at counts.new other ≡ (if id == other then count else count_at counts.old other)) }
    ensures err { OnErr result ((other : ℕ) → count_at counts.new other ≡ count_at counts.old other) }
{
    match counts.insert(id, count) {
        Ok(_) => Ok(()),
        Err(_) => Err(OutOfMemory),
    }
}

// Keeps one place more for an id: the one behind those that were read. At `Err` as many are kept, and the same ones.
fn keep_one(kept: &mut HandedPlaces, id: TypeId) -> Result<(), OutOfMemory>
    ensures ok { OnOk result (IsOneMore id.0 kept.old kept.new) }
    ensures err { OnErr result (IsAsMany kept.old kept.new) }
{
    let count = count_at(kept, id);
    if count >= MOST {
        return Err(OutOfMemory);
    }
    put_place(&mut kept.places, id.0, count, kept.read)?;
    put_count(&mut kept.counts, id.0, count + 1)
}

/// One pointer more was handed over, under a type: its place is kept. At `Err` what is kept stays right.
pub fn keep_place(kept: &mut HandedPlaces, types: &TypeTable, ty: TypeId) -> Result<(), OutOfMemory>
    ensures ok { (handed : List (TypeId × Cell)) (cell : Cell) → ArePlaces types.now handed kept.old →
        OnOk result (ArePlaces types.now (handed ++ (ty, cell) ∷ []) kept.new) }
    ensures err { (handed : List (TypeId × Cell)) → ArePlaces types.now handed kept.old →
        OnErr result (ArePlaces types.now handed kept.new) }
{
    if kept.read >= MOST {
        return Err(OutOfMemory);
    }
    if ty.0 < types.type_count() {
        keep_one(kept, types.first_same(ty))?;
    }
    kept.read += 1;
    Ok(())
}

/// Reads what was handed over since. At `Err` what is kept stays right, and less may be left to read.
pub fn read_on(
    kept: &mut HandedPlaces,
    types: &TypeTable,
    handed: &[(TypeId, Cell)],
) -> Result<(), OutOfMemory>
    requires { AreRead types.now handed.now kept.old }
    ensures whole { OnOk result (ArePlaces types.now handed.now kept.new) }
    ensures read { AreRead types.now handed.now kept.new }
{
    while kept.read < handed.len() {
        keep_place(kept, types, handed[kept.read].0)?;
    }
    Ok(())
}

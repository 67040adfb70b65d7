// Whether what cells point to is in the sets of their rows.

ghost use Rattle.std.specs.Prelude.{◌≡◌, ◌↔◌, ℕ, ◌≤◌, [], ◌∷◌, Option, IsTrue, IfSome, All, length, slice_get};
ghost use Rattle.obj_space.specs.Spots.{Reached, part_at};
ghost use Rattle.ref_cells.specs.Places.{IsKnown, AreKnown};
ghost use Rattle.ref_cells.specs.Wholes.{IsOver, shape_in, whole_of};
ghost use Rattle.covering_laws.specs.covered_memory.Spots.{whole_part, room, IsInTree};
ghost use Rattle.covering_laws.specs.covered_memory.Covered.{pointer_row};
ghost use Rattle.row_covers.specs.Parts.{IsEnd};
ghost use Rattle.row_covers.specs.Scene.{IsScene, sets_over};
ghost use Rattle.row_covers.specs.Cells.{PointsBy, CellBy, IsRowed, SameRow, row_by, EntryBy};

use crate::parts::{End, end_of};
use crate::scene::{Scene, lands};
use c_types::key::ObjectKey;
use c_types::table::TypeTable;
use c_types::term::{PathStep, TypeId};
use ref_cells::cells::{Cell, Path};
use ref_cells::instance::Instance;
use ref_cells::wholes::{Whole, whole_of};
use row_numbers::kept::kept_before;

/// Which row each node of an object or value has: an object's nodes those of its locations, one alone where it is a blob; the
/// nodes of a value that have rows follow one another.
#[derive(Clone, Copy)]
pub enum NodeRows {
    Object(u32),
    Blob(u32),
    Value(u64, TypeId),
}

/// Whether a path is that of a first element.
pub fn is_first(path: &[PathStep]) -> bool
    ensures { IsTrue result ↔ (path.now ≡ PathStep.Index 0 ∷ []) }
{
    match path {
        [PathStep::Index(i)] => *i == 0,
        _ => false,
    }
}

// Whether a path is that of an element, up to a greatest index.
fn is_element(path: &[PathStep], most: u64) -> bool
    ensures { IsTrue result ↔ ((i : ℕ) × (path.now ≡ PathStep.Index i ∷ []) × (i ≤ most)) }
{
    match path {
        [PathStep::Index(i)] => *i <= most,
        _ => false,
    }
}

// The greatest index in an instance without a type.
fn room(inst: &Instance) -> u64
    ensures { result ≡ room inst.now }
{
    match inst.key {
        ObjectKey::Varargs(_) => inst.bytes,
        ObjectKey::Entity(_) | ObjectKey::Text(_) | ObjectKey::Call(_) => 0,
        ObjectKey::Library(_) | ObjectKey::Star(_) | ObjectKey::Function(_) => 0,
        ObjectKey::Outside => 0,
    }
}

// Whether a path stands in the tree of a whole; where there is none, it is that of an element up to a greatest index.
fn stands_in(types: &TypeTable, whole: Option<Whole>, most: u64, path: &[PathStep]) -> bool
    requires { IfSome whole (IsOver (length types.now.terms)) }
    ensures { IsTrue result ↔ IsInTree types.now (shape_in types.now whole) most path.now }
{
    match whole {
        Some(found) => end_of(types, found, path).is_some(),
        None => is_element(path, most),
    }
}

/// Whether a path stands in the tree of an instance's type.
pub fn stands(types: &TypeTable, inst: &Instance, path: &[PathStep]) -> bool
    requires { IsKnown (length types.now.terms) inst.now.ty }
    ensures { IsTrue result ↔ IsInTree types.now (whole_of types.now inst.now) (room inst.now) path.now }
{
    stands_in(types, whole_of(types, inst), room(inst), path)
}

// Whether a pointer stands in its instance's tree, and the location of what it points to is in a row's set.
fn points(
    scene: &Scene<'_>,
    memory: &[Instance],
    row: Option<u64>,
    instance: u32,
    path: &[PathStep],
) -> bool
    requires scene { IsScene scene.now }
    requires known { AreKnown (length scene.now.trees.types.now.terms) memory.now }
    ensures { IsTrue result ↔ PointsBy (sets_over scene.now) row path.now (slice_get memory.now instance) }
{
    match memory.get(instance as usize) {
        Some(inst) => stands(scene.trees.types, inst, path) && lands(scene, row, inst.key, path),
        None => false,
    }
}

/// Whether what a cell points to is in a row's set; without a row it points to nothing.
pub fn is_covered(scene: &Scene<'_>, memory: &[Instance], row: Option<u64>, cell: &Cell) -> bool
    requires scene { IsScene scene.now }
    requires known { AreKnown (length scene.now.trees.types.now.terms) memory.now }
    ensures { IsTrue result ↔ CellBy (sets_over scene.now) memory.now row cell.now }
{
    match cell {
        Cell::Pointer { instance, path, .. } => points(
            scene,
            memory,
            row,
            *instance,
            path.as_slice(),
        ),
        Cell::Function(key) => lands(scene, row, *key, &[]),
        Cell::Unset | Cell::Number(_) | Cell::Null => true,
    }
}

// The row of a node.
fn row_of(types: &TypeTable, rows: NodeRows, node: u32) -> u64
    requires { IsRowed types.now rows }
    ensures { result ≡ row_by types.now rows node }
{
    match rows {
        NodeRows::Object(first) => u64::from(first) + u64::from(node),
        NodeRows::Blob(first) => u64::from(first),
        NodeRows::Value(first, ty) => first + u64::from(kept_before(types, ty, node)),
    }
}

// The row of what stands at the end of a path, where it is a pointer.
fn pointer_row(types: &TypeTable, rows: NodeRows, end: Option<End>) -> Option<u64>
    requires { IsRowed types.now rows }
    ensures { (r : Option Reached) → IsEnd r end → SameRow result (pointer_row (row_by types.now rows) r) }
{
    match end {
        Some(end) => {
            if end.pointer {
                Some(row_of(types, rows, end.node))
            } else {
                None
            }
        }
        None => None,
    }
}

// What stands at the end of a path from a whole, where there is one.
fn end_in(types: &TypeTable, whole: Option<Whole>, path: &[PathStep]) -> Option<End>
    requires { IfSome whole (IsOver (length types.now.terms)) }
    ensures { IsEnd (part_at types.now (whole_part (shape_in types.now whole)) path.now) result }
{
    match whole {
        Some(found) => end_of(types, found, path),
        None => None,
    }
}

// Whether what a cell at a path points to is in the set of its node's row.
fn is_entry_covered(
    scene: &Scene<'_>,
    memory: &[Instance],
    rows: NodeRows,
    whole: Option<Whole>,
    entry: &(Path, Cell),
) -> bool
    requires scene { IsScene scene.now }
    requires known { AreKnown (length scene.now.trees.types.now.terms) memory.now }
    requires rows { IsRowed scene.now.trees.types.now rows }
    requires whole { IfSome whole (IsOver (length scene.now.trees.types.now.terms)) }
    ensures { IsTrue result
        ↔ EntryBy (sets_over scene.now) memory.now (row_by scene.now.trees.types.now rows)
        (whole_part (shape_in scene.now.trees.types.now whole)) entry.now }
{
    let end = end_in(scene.trees.types, whole, entry.0.as_slice());
    is_covered(
        scene,
        memory,
        pointer_row(scene.trees.types, rows, end),
        &entry.1,
    )
}

/// Whether what each cell points to is in the set of its node's row.
pub fn are_covered(
    scene: &Scene<'_>,
    memory: &[Instance],
    rows: NodeRows,
    whole: Option<Whole>,
    cells: &[(Path, Cell)],
) -> bool
    requires scene { IsScene scene.now }
    requires known { AreKnown (length scene.now.trees.types.now.terms) memory.now }
    requires rows { IsRowed scene.now.trees.types.now rows }
    requires whole { IfSome whole (IsOver (length scene.now.trees.types.now.terms)) }
    ensures { IsTrue result
        ↔ All
        (λ entry. EntryBy (sets_over scene.now) memory.now (row_by scene.now.trees.types.now rows)
        (whole_part (shape_in scene.now.trees.types.now whole)) entry)
        cells.now }
{
    cells.iter().all(|entry| is_entry_covered(scene, memory, rows, whole, entry))
}

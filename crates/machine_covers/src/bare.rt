// Whether each object without a type that the conversion above its call is to type is pointed to by that conversion's operand alone.

ghost use Rattle.std.specs.Prelude.{◌≡◌, ◌↔◌, [], ◌∷◌, false, ℕ, Some, IsTrue, All, drop, slice_get};
ghost use Rattle.c_types.specs.declared.term.PathStep.{PathStep as Step};
ghost use Rattle.ref_cells.specs.declared.cells.Cell.{Cell as CellSeen};
ghost use Rattle.covering_laws.specs.covered_state.Awaited.{IsApart};
ghost use Rattle.row_covers.specs.Scene.{sight_of};
ghost use Rattle.machine_covers.specs.Bare.{IsElements, BareBy, EntryApart, CellsApart, ValueApart, PairApart, ItemLeaves};
ghost use Rattle.machine_covers.specs.Bare.{ItemsLeave, LeavesAt, FrameLeaves, InstanceLeaves, StartEntry, StartOf};
ghost use Rattle.machine_covers.specs.Bare.{ConversionOf, OperandBy, OperandsBy, ConvertsBy, TopConverts, ItemsAwait};
ghost use Rattle.machine_covers.specs.Bare.{TopAwaits, FramesAwait, AwaitedBy, AwaitedAll};

use c_types::key::ObjectKey;
use core_tree::NodeKind;
use obj_space::Content;
use ref_cells::cells::{Cell, Path, Value};
use ref_cells::instance::Instance;
use ref_state::frames::Frame;
use ref_state::items::{Item, Items};
use row_covers::cells::is_first;
use row_covers::scene::Scene;

// Whether an object is made of elements of a type.
fn is_elements(content: Content) -> bool
    ensures { IsTrue result ↔ IsElements content }
{
    match content {
        Content::Elements(_) => true,
        Content::Function | Content::Blob | Content::Scalar(_) => false,
        Content::Scalars(_) | Content::Typed(_) => false,
    }
}

// Whether an instance has no type, and is of an object of elements of one.
fn is_bare(scene: &Scene<'_>, inst: &Instance) -> bool
    ensures { IsTrue result ↔ BareBy (sight_of scene.now) inst.now }
{
    if inst.ty.is_some() {
        return false;
    }
    match scene.space.first(inst.key) {
        Some(first) => is_elements(scene.space.location(first).content),
        None => false,
    }
}

// Whether a cell doesn't point to an instance.
fn is_apart(i: usize, cell: &Cell) -> bool
    ensures { IsTrue result ↔ IsApart i cell.now }
{
    match cell {
        Cell::Pointer { instance, .. } => *instance as usize != i,
        Cell::Unset | Cell::Number(_) | Cell::Null | Cell::Function(_) => true,
    }
}

// Whether a cell at a path doesn't point to an instance.
fn is_entry_apart(i: usize, entry: &(Path, Cell)) -> bool
    ensures { IsTrue result ↔ EntryApart i entry.now }
{
    is_apart(i, &entry.1)
}

// Whether no cell of a list points to an instance.
fn are_cells_apart(i: usize, cells: &[(Path, Cell)]) -> bool
    ensures { IsTrue result ↔ CellsApart i cells.now }
{
    cells.iter().all(|entry| is_entry_apart(i, entry))
}

// Whether a value doesn't point to an instance.
fn is_value_apart(i: usize, value: &Value) -> bool
    ensures { IsTrue result ↔ ValueApart i value.now }
{
    are_cells_apart(i, value.cells.as_slice())
}

// Whether a node's value doesn't point to an instance.
#[tactic(auto, unfolding(crate::specs::Bare::PairApart))]
fn is_pair_apart(i: usize, entry: &(u32, Value)) -> bool
    ensures { IsTrue result ↔ PairApart i entry.now }
{
    is_value_apart(i, &entry.1)
}

// Whether no value of a list points to an instance.
fn are_values_apart(i: usize, values: &[Value]) -> bool
    ensures { IsTrue result ↔ All (λ v. ValueApart i v) values.now }
{
    values.iter().all(|value| is_value_apart(i, value))
}

// Whether no node's value points to an instance.
fn are_pairs_apart(i: usize, values: &[(u32, Value)]) -> bool
    ensures { IsTrue result ↔ All (λ entry. PairApart i entry) values.now }
{
    values.iter().all(|entry| is_pair_apart(i, entry))
}

// Whether an item points to an instance nowhere.
fn item_leaves(i: usize, item: &Item) -> bool
    ensures { IsTrue result ↔ ItemLeaves i item.now }
{
    match item {
        Item::Do(_) => true,
        Item::Wait { values, .. } => are_pairs_apart(i, values.as_slice()),
        Item::Library { arguments, .. } => are_values_apart(i, arguments.as_slice()),
        Item::Result(value) => is_value_apart(i, value),
    }
}

// Whether the item at a place, behind so many at the top, doesn't point to an instance.
fn leaves_at(i: usize, off: usize, items: &Items, k: usize) -> bool
    ensures { IsTrue result ↔ LeavesAt i off k (slice_get items.now k) }
{
    match items.from_top(k) {
        Some(item) => k < off || item_leaves(i, item),
        None => true,
    }
}

// Whether no item behind so many at the top points to an instance.
fn items_leave(i: usize, off: usize, items: &Items) -> bool
    ensures { IsTrue result ↔ ItemsLeave i (drop off items.now) }
{
    for k in 0..items.len() {
        if !leaves_at(i, off, items, k) {
            return false;
        }
    }
    true
}

// Whether a frame points to an instance nowhere.
fn frame_leaves(i: usize, frame: &Frame) -> bool
    ensures { IsTrue result ↔ FrameLeaves i frame.now }
{
    items_leave(i, 0, &frame.items)
}

// Whether the cells of an instance don't point to an instance.
fn instance_leaves(i: usize, inst: &Instance) -> bool
    ensures { IsTrue result ↔ InstanceLeaves i inst.now }
{
    are_cells_apart(i, inst.cells.as_slice())
}

// Whether a cell is the pointer to the first element of an instance.
fn is_start(i: usize, cell: &Cell) -> bool
    ensures { IsTrue result ↔ (cell.now ≡ CellSeen.Pointer i (Step.Index 0 ∷ []) false) }
{
    match cell {
        Cell::Pointer {
            instance,
            path,
            past,
        } => *instance as usize == i && !*past && is_first(path.as_slice()),
        Cell::Unset | Cell::Number(_) | Cell::Null | Cell::Function(_) => false,
    }
}

// Whether a cell that is the whole value is that pointer.
fn is_start_entry(i: usize, entry: &(Path, Cell)) -> bool
    ensures { IsTrue result ↔ StartEntry i entry.now }
{
    entry.0.as_slice().is_empty() && is_start(i, &entry.1)
}

// Whether a value is the pointer to the first element of an instance.
fn is_start_of(i: usize, cells: &[(Path, Cell)]) -> bool
    ensures { IsTrue result ↔ StartOf i cells.now }
{
    match cells {
        [entry] => is_start_entry(i, entry),
        _ => false,
    }
}

// Whether a node is a conversion of that operand.
fn is_conversion(scene: &Scene<'_>, n: u32, operand: u32) -> bool
    ensures { IsTrue result ↔ ConversionOf operand (slice_get scene.now.trees.nodes.now n) }
{
    match scene.trees.nodes.get(n as usize) {
        Some(node) => {
            matches!(node.kind, NodeKind::Convert) && is_one(node.children.as_slice(), operand)
        }
        None => false,
    }
}

// Whether a list is that number alone.
fn is_one(list: &[u32], number: u32) -> bool
    ensures { IsTrue result ↔ (list.now ≡ number ∷ []) }
{
    match list {
        [only] => *only == number,
        _ => false,
    }
}

// Whether a conversion has the pointer to an instance of a call, which is its operand.
fn has_operand(scene: &Scene<'_>, i: usize, key: ObjectKey, n: u32, entry: &(u32, Value)) -> bool
    ensures { IsTrue result ↔ OperandBy (sight_of scene.now) i key n entry.now }
{
    key == ObjectKey::Call(entry.0)
        && is_start_of(i, entry.1.cells.as_slice())
        && is_conversion(scene, n, entry.0)
}

// Whether that is the only value of a node.
fn has_operands(
    scene: &Scene<'_>,
    i: usize,
    key: ObjectKey,
    n: u32,
    values: &[(u32, Value)],
) -> bool
    ensures { IsTrue result ↔ OperandsBy (sight_of scene.now) i key n values.now }
{
    match values {
        [entry] => has_operand(scene, i, key, n, entry),
        _ => false,
    }
}

// Whether an item is the conversion of a call, which has the pointer to an instance.
fn converts(scene: &Scene<'_>, i: usize, key: ObjectKey, item: &Item) -> bool
    ensures { IsTrue result ↔ ConvertsBy (sight_of scene.now) i key item.now }
{
    match item {
        Item::Wait { node, left, values } => {
            left.as_slice().is_empty() && has_operands(scene, i, key, *node, values.as_slice())
        }
        Item::Do(_) | Item::Library { .. } | Item::Result(_) => false,
    }
}

// Whether the top item is that.
fn top_converts(scene: &Scene<'_>, i: usize, key: ObjectKey, items: &Items) -> bool
    ensures { IsTrue result ↔ TopConverts (sight_of scene.now) i key (slice_get items.now 0) }
{
    match items.top() {
        Some(item) => converts(scene, i, key, item),
        None => false,
    }
}

// Whether the top item is that, and no other one points to the instance.
#[tactic(auto, unfolding(crate::specs::Bare::ItemsAwait))]
fn items_await(scene: &Scene<'_>, i: usize, key: ObjectKey, items: &Items) -> bool
    ensures { IsTrue result ↔ ItemsAwait (sight_of scene.now) i key items.now }
{
    top_converts(scene, i, key, items) && items_leave(i, 1, items)
}

// Whether the top frame awaits an instance; the others don't point to it.
fn frames_await(scene: &Scene<'_>, i: usize, key: ObjectKey, frames: &[Frame]) -> bool
    ensures { IsTrue result ↔ FramesAwait (sight_of scene.now) i key frames.now }
{
    let below = frames.len().saturating_sub(1);
    match frames.get(below) {
        Some(top) => {
            items_await(scene, i, key, &top.items)
                && frames
                    .iter()
                    .take(below)
                    .all(|frame| frame_leaves(i, frame))
        }
        None => false,
    }
}

// Whether an instance is awaited, and no cell points to it, where it is without the type of its object's elements. At most one instance is
// on top, so memory is gone through once more at most.
fn is_awaited(
    scene: &Scene<'_>,
    memory: &[Instance],
    frames: &[Frame],
    i: usize,
    inst: &Instance,
) -> bool
    ensures { IsTrue result ↔ AwaitedBy (sight_of scene.now) memory.now frames.now i inst.now }
{
    !is_bare(scene, inst)
        || frames_await(scene, i, inst.key, frames)
            && memory.iter().all(|other| instance_leaves(i, other))
}

/// Whether each instance without the type of its object's elements is awaited: the top item has the only pointer to it.
pub fn are_awaited(scene: &Scene<'_>, memory: &[Instance], frames: &[Frame]) -> bool
    ensures { IsTrue result ↔ AwaitedAll (sight_of scene.now) memory.now frames.now }
{
    for i in 0..memory.len() {
        if !is_awaited(scene, memory, frames, i, &memory[i]) {
            return false;
        }
    }
    true
}

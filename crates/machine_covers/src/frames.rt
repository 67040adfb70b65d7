// Whether frames, what they have still to do, kept functions and notes are covered.

ghost use Rattle.std.specs.Prelude.{◌≡◌, ◌↔◌, ◌≤◌, ◌<◌, ◌+◌, ◌^◌, Some, IsTrue, IfSome, All, length, slice_get};
ghost use Rattle.core_tree.specs.Seen.{core_of};
ghost use Rattle.row_numbers.specs.Kept.{kept_count};
ghost use Rattle.row_numbers.specs.Functions.{key_id};
ghost use Rattle.row_numbers.specs.Setting.{result_nodes};
ghost use Rattle.ref_cells.specs.Places.{AreKnown};
ghost use Rattle.row_covers.specs.Scene.{IsScene, sets_over, sight_of};
ghost use Rattle.row_covers.specs.Cells.{CellBy, SameRow};
ghost use Rattle.covering_laws.specs.covered_memory.Covered.{outside_row};
ghost use Rattle.call_sites.specs.Calls.{rest_of};
ghost use Rattle.covering_laws.specs.covered_memory.Spots.{spot};
ghost use Rattle.covering_laws.specs.covered_library.Calls.{instance_row, place_row};
ghost use Rattle.machine_covers.specs.Frames.{numbered, width_of, width_at, result_start, GivenBy, ReturnedBy, ValueBy};
ghost use Rattle.machine_covers.specs.Frames.{ArgumentBy, ArgumentAt, ArgumentsBy, PendingAt, ThereBy, EntryExists};
ghost use Rattle.machine_covers.specs.Frames.{ValueExists, PendingBackBy, LibraryBy, ItemBy, ItemAt, CalledBy, UnderBy};
ghost use Rattle.machine_covers.specs.Frames.{FrameBy, EndAt, KeptBy, StoreBy, NotedBy, NotesBy, HandedAll, FramesBy};
ghost use Rattle.machine_covers.specs.Frames.{KeptAll, first_of};

use c_types::key::ObjectKey;
use c_types::term::{PathStep, TypeId};
use ref_cells::cells::{Cell, Path, Value};
use ref_cells::instance::Instance;
use ref_cells::wholes::Whole;
use ref_state::frames::Frame;
use ref_state::items::{Item, Items};
use ref_state::notes::Notes;
use row_covers::cells::{NodeRows, are_covered, is_covered, stands};
use row_covers::scene::Scene;
use row_covers::targets::{function_at, is_called_back_at, is_in_graph, is_target_at};
use row_covers::values::{has_row, is_held_covered, is_node_covered, start_row};
use row_numbers::kept::kept_count;
use row_numbers::numbering::result_id;
use row_numbers::objects::library_id;
use sol_model::Function;

// The declared type of a function.
fn key_id(scene: &Scene<'_>, key: ObjectKey) -> Option<TypeId>
    requires { IsScene scene.now }
    ensures value { result ≡ key_id (core_of scene.now.trees) key }
    ensures known { IfSome result (λ id. id.0 < length scene.now.trees.types.now.terms) }
{
    match key {
        ObjectKey::Entity(e) => match scene.trees.entities.get(e as usize) {
            Some(entity) => Some(entity.ty),
            None => None,
        },
        ObjectKey::Function(k) => library_id(k, scene.trees.entities),
        ObjectKey::Text(_) | ObjectKey::Call(_) => None,
        ObjectKey::Library(_) | ObjectKey::Star(_) | ObjectKey::Varargs(_) => None,
        ObjectKey::Outside => None,
    }
}

// How many rows the result of a function has.
fn result_width(scene: &Scene<'_>, key: ObjectKey) -> u32
    requires { IsScene scene.now }
    ensures width { result ≡ kept_count (result_nodes (core_of scene.now.trees) key) }
    ensures within { result ≤ 2 ^ 24 }
{
    match result_id(scene.trees.types, key_id(scene, key)) {
        Some(id) => kept_count(scene.trees.types, id),
        None => 0,
    }
}

// How many rows the result of a function of the system has.
fn width_of(scene: &Scene<'_>, function: &Function) -> u32
    requires { IsScene scene.now }
    ensures width { result ≡ width_of (core_of scene.now.trees) scene.now.space.now function.now }
    ensures within { result ≤ 2 ^ 24 }
{
    if function.location < scene.space.count() {
        result_width(scene, scene.space.location(function.location).key)
    } else {
        0
    }
}

// How many functions stand before a location.
fn functions_before(scene: &Scene<'_>, l: u32) -> usize
    ensures value { result ≡ numbered scene.now.system.now (Some l) }
    ensures few { result ≤ l }
{
    scene
        .system
        .locations
        .as_slice()
        .iter()
        .take(l as usize)
        .filter(|fact| fact.function.is_some())
        .count()
}

// How many functions stand before an object.
fn number_of(scene: &Scene<'_>, key: ObjectKey) -> usize
    ensures value { result ≡ numbered scene.now.system.now (first_of (sight_of scene.now) key) }
    ensures few { result < 2 ^ 32 }
{
    match scene.space.first(key) {
        Some(l) => functions_before(scene, l),
        None => 0,
    }
}

// How many rows the result of the function of that number has.
fn width_at(scene: &Scene<'_>, number: usize) -> u32
    requires { IsScene scene.now }
    ensures width { result ≡ width_at (core_of scene.now.trees) scene.now.space.now (slice_get scene.now.system.now.functions number) }
    ensures within { result ≤ 2 ^ 24 }
{
    match scene.system.functions.as_slice().get(number) {
        Some(function) => width_of(scene, function),
        None => 0,
    }
}

// The first row of the result of the function of that number.
fn result_start(scene: &Scene<'_>, number: usize) -> u64
    requires scene { IsScene scene.now }
    requires number { number < 2 ^ 32 }
    ensures value { result ≡ result_start (core_of scene.now.trees) scene.now.space.now scene.now.system.now number }
    ensures small { result ≤ 2 ^ 58 }
{
    let mut row = start_row(scene, scene.trees.nodes.len() as u32);
    for i in 0..number {
        row += u64::from(width_at(scene, i));
    }
    row
}

// Whether a value is in the rows of a function's result.
fn is_given_covered(scene: &Scene<'_>, memory: &[Instance], key: ObjectKey, value: &Value) -> bool
    requires scene { IsScene scene.now }
    requires known { AreKnown (length scene.now.trees.types.now.terms) memory.now }
    ensures { IsTrue result ↔ GivenBy (sight_of scene.now) memory.now key value.now }
{
    match result_id(scene.trees.types, key_id(scene, key)) {
        Some(ty) => are_covered(
            scene,
            memory,
            NodeRows::Value(result_start(scene, number_of(scene, key)), ty),
            Some(Whole::One(ty)),
            value.cells.as_slice(),
        ),
        None => has_row(scene, memory, None, value.cells.as_slice()),
    }
}

// Whether a value that a function returns is in the rows of its result.
fn is_returned_covered(
    scene: &Scene<'_>,
    memory: &[Instance],
    key: ObjectKey,
    value: &Value,
) -> bool
    requires scene { IsScene scene.now }
    requires known { AreKnown (length scene.now.trees.types.now.terms) memory.now }
    ensures { IsTrue result ↔ ReturnedBy (sight_of scene.now) memory.now key value.now }
{
    match key {
        ObjectKey::Entity(_) => is_given_covered(scene, memory, key, value),
        ObjectKey::Text(_) | ObjectKey::Call(_) | ObjectKey::Library(_) => false,
        ObjectKey::Star(_) | ObjectKey::Function(_) | ObjectKey::Varargs(_) => false,
        ObjectKey::Outside => false,
    }
}

// Whether a node has a value.
fn is_value_covered(scene: &Scene<'_>, memory: &[Instance], entry: &(u32, Value)) -> bool
    requires scene { IsScene scene.now }
    requires known { AreKnown (length scene.now.trees.types.now.terms) memory.now }
    ensures { IsTrue result ↔ ValueBy (sight_of scene.now) memory.now entry.now }
{
    is_node_covered(scene, memory, entry.0, &entry.1)
}

// Whether an argument stands in the rows of its node.
#[tactic(auto, unfolding(crate::specs::Frames::ArgumentBy))]
fn is_argument_covered(scene: &Scene<'_>, memory: &[Instance], n: u32, value: &Value) -> bool
    requires scene { IsScene scene.now }
    requires known { AreKnown (length scene.now.trees.types.now.terms) memory.now }
    ensures { IsTrue result ↔ ArgumentBy (sight_of scene.now) memory.now (n, value.now) }
{
    (n as usize) < scene.trees.nodes.len() && is_held_covered(scene, memory, n, value)
}

// Whether the argument in that place stands in the rows of the node in that place.
#[tactic(auto, unfolding(crate::specs::Frames::ArgumentAt))]
fn is_argument_at(
    scene: &Scene<'_>,
    memory: &[Instance],
    nodes: &[u32],
    arguments: &[Value],
    k: usize,
) -> bool
    requires scene { IsScene scene.now }
    requires known { AreKnown (length scene.now.trees.types.now.terms) memory.now }
    ensures { IsTrue result ↔ ArgumentAt (sight_of scene.now) memory.now nodes.now arguments.now k }
{
    let Some(n) = nodes.get(k) else {
        return false;
    };
    match arguments.get(k) {
        Some(value) => is_argument_covered(scene, memory, *n, value),
        None => false,
    }
}

// Whether each argument stands in the rows of its node, place by place.
fn are_arguments_covered(
    scene: &Scene<'_>,
    memory: &[Instance],
    nodes: &[u32],
    arguments: &[Value],
) -> bool
    requires scene { IsScene scene.now }
    requires known { AreKnown (length scene.now.trees.types.now.terms) memory.now }
    ensures { IsTrue result ↔ ArgumentsBy (sight_of scene.now) memory.now nodes.now arguments.now }
{
    for k in 0..arguments.len() {
        if !is_argument_at(scene, memory, nodes, arguments, k) {
            return false;
        }
    }
    true
}

// The children of a call behind its callee.
fn operands_of(children: &[u32]) -> &[u32]
    ensures { result.now ≡ rest_of children.now }
{
    match children {
        [] => &[],
        [_, rest @ ..] => rest,
    }
}

// Whether a function of the library is a target of the call that waits for it, and has its arguments.
fn is_pending(
    scene: &Scene<'_>,
    memory: &[Instance],
    n: u32,
    function: u32,
    arguments: &[Value],
) -> bool
    requires scene { IsScene scene.now }
    requires known { AreKnown (length scene.now.trees.types.now.terms) memory.now }
    ensures { IsTrue result ↔ PendingAt (sight_of scene.now) memory.now n function arguments.now (slice_get scene.now.trees.nodes.now n) }
{
    match scene.trees.nodes.get(n as usize) {
        Some(node) => {
            is_target_at(scene, n, ObjectKey::Function(function))
                && are_arguments_covered(
                    scene,
                    memory,
                    operands_of(node.children.as_slice()),
                    arguments,
                )
        }
        None => false,
    }
}

// Whether an instance of that number is there, and a path in its tree.
fn is_there(scene: &Scene<'_>, memory: &[Instance], instance: u32, path: &[PathStep]) -> bool
    requires { AreKnown (length scene.now.trees.types.now.terms) memory.now }
    ensures { IsTrue result ↔ ThereBy (sets_over scene.now) path.now (slice_get memory.now instance) }
{
    match memory.get(instance as usize) {
        Some(inst) => stands(scene.trees.types, inst, path),
        None => false,
    }
}

// Whether what a cell points to is there.
fn exists(scene: &Scene<'_>, memory: &[Instance], entry: &(Path, Cell)) -> bool
    requires { AreKnown (length scene.now.trees.types.now.terms) memory.now }
    ensures { IsTrue result ↔ EntryExists (sets_over scene.now) memory.now entry.now }
{
    match &entry.1 {
        Cell::Pointer { instance, path, .. } => is_there(scene, memory, *instance, path.as_slice()),
        Cell::Unset | Cell::Number(_) | Cell::Null | Cell::Function(_) => true,
    }
}

// Whether what the cells of a value point to is there.
fn value_exists(scene: &Scene<'_>, memory: &[Instance], value: &Value) -> bool
    requires { AreKnown (length scene.now.trees.types.now.terms) memory.now }
    ensures { IsTrue result ↔ ValueExists (sets_over scene.now) memory.now value.now }
{
    value
        .cells
        .as_slice()
        .iter()
        .all(|entry| exists(scene, memory, entry))
}

// Whether a target of a call calls a function of the library back, and what its arguments point to is there.
fn is_pending_back(
    scene: &Scene<'_>,
    memory: &[Instance],
    n: u32,
    function: u32,
    arguments: &[Value],
) -> bool
    requires scene { IsScene scene.now }
    requires known { AreKnown (length scene.now.trees.types.now.terms) memory.now }
    ensures { IsTrue result ↔ PendingBackBy (sight_of scene.now) memory.now n function arguments.now }
{
    is_called_back_at(scene, n, ObjectKey::Function(function))
        && arguments
            .iter()
            .all(|value| value_exists(scene, memory, value))
}

// Whether a function of the library waits for its call, or a target of the call calls it back.
fn is_library_covered(
    scene: &Scene<'_>,
    memory: &[Instance],
    n: u32,
    function: u32,
    arguments: &[Value],
) -> bool
    requires scene { IsScene scene.now }
    requires known { AreKnown (length scene.now.trees.types.now.terms) memory.now }
    ensures { IsTrue result ↔ LibraryBy (sight_of scene.now) memory.now n function arguments.now }
{
    is_pending(scene, memory, n, function, arguments)
        || is_pending_back(scene, memory, n, function, arguments)
}

// Whether nodes have their values.
fn are_values_covered(scene: &Scene<'_>, memory: &[Instance], values: &[(u32, Value)]) -> bool
    requires scene { IsScene scene.now }
    requires known { AreKnown (length scene.now.trees.types.now.terms) memory.now }
    ensures { IsTrue result ↔ All (λ entry. ValueBy (sight_of scene.now) memory.now entry) values.now }
{
    values
        .iter()
        .all(|entry| is_value_covered(scene, memory, entry))
}

// Whether what an item of a function's frame holds is covered.
fn is_item_covered(scene: &Scene<'_>, memory: &[Instance], key: ObjectKey, item: &Item) -> bool
    requires scene { IsScene scene.now }
    requires known { AreKnown (length scene.now.trees.types.now.terms) memory.now }
    ensures { IsTrue result ↔ ItemBy (sight_of scene.now) memory.now key item.now }
{
    match item {
        Item::Do(_) => true,
        Item::Wait { values, .. } => are_values_covered(scene, memory, values.as_slice()),
        Item::Library {
            node,
            function,
            arguments,
        } => is_library_covered(scene, memory, *node, *function, arguments.as_slice()),
        Item::Result(value) => is_returned_covered(scene, memory, key, value),
    }
}

// Whether a frame's function is a target of the call that entered it.
fn is_called(scene: &Scene<'_>, key: ObjectKey, call: Option<u32>) -> bool
    requires { IsScene scene.now }
    ensures { IsTrue result ↔ CalledBy (sight_of scene.now) key call }
{
    match call {
        Some(n) => is_target_at(scene, n, key),
        None => true,
    }
}

// Whether a frame's function stands under the function of the library that called it back.
fn is_under(scene: &Scene<'_>, key: ObjectKey, by: Option<u32>) -> bool
    requires { IsScene scene.now }
    ensures { IsTrue result ↔ UnderBy (sight_of scene.now) key by }
{
    match by {
        Some(library) => is_in_graph(scene, library, key),
        None => true,
    }
}

// Whether what the item at a place holds is covered, where there is one.
fn is_item_at_covered(
    scene: &Scene<'_>,
    memory: &[Instance],
    key: ObjectKey,
    items: &Items,
    k: usize,
) -> bool
    requires scene { IsScene scene.now }
    requires known { AreKnown (length scene.now.trees.types.now.terms) memory.now }
    ensures { IsTrue result ↔ ItemAt (sight_of scene.now) memory.now key (slice_get items.now k) }
{
    match items.from_top(k) {
        Some(item) => is_item_covered(scene, memory, key, item),
        None => true,
    }
}

// Whether what each item of a function's frame holds is covered.
fn are_items_covered(scene: &Scene<'_>, memory: &[Instance], key: ObjectKey, items: &Items) -> bool
    requires scene { IsScene scene.now }
    requires known { AreKnown (length scene.now.trees.types.now.terms) memory.now }
    ensures { IsTrue result ↔ All (λ item. ItemBy (sight_of scene.now) memory.now key item) items.now }
{
    for k in 0..items.len() {
        if !is_item_at_covered(scene, memory, key, items, k) {
            return false;
        }
    }
    true
}

// Whether a frame is covered: the call that entered it, or the function of the library that called it back, and what its items hold.
fn is_frame_covered(scene: &Scene<'_>, memory: &[Instance], frame: &Frame) -> bool
    requires scene { IsScene scene.now }
    requires known { AreKnown (length scene.now.trees.types.now.terms) memory.now }
    ensures { IsTrue result ↔ FrameBy (sight_of scene.now) memory.now frame.now }
{
    is_called(scene, frame.function, frame.call)
        && is_under(scene, frame.function, frame.by)
        && are_items_covered(scene, memory, frame.function, &frame.items)
}

// Whether the function of that number stands under atexit, where it is one that is called at the end.
fn is_end(scene: &Scene<'_>, key: ObjectKey, number: Option<u32>) -> bool
    requires { IsScene scene.now }
    ensures { IsTrue result ↔ EndAt (sight_of scene.now) key number }
{
    let Some(found) = number else {
        return true;
    };
    match scene.system.functions.as_slice().get(found as usize) {
        Some(function) => function.signature != 1 || is_in_graph(scene, 24, key),
        None => true,
    }
}

// Whether a function that is kept for the end was kept by a call that has `atexit` among its targets, and stands under `atexit` where it
// is called.
fn is_kept_covered(scene: &Scene<'_>, entry: &(ObjectKey, u32)) -> bool
    requires { IsScene scene.now }
    ensures { IsTrue result ↔ KeptBy (sight_of scene.now) entry.now }
{
    is_target_at(scene, entry.1, ObjectKey::Function(24))
        && is_end(scene, entry.0, function_at(scene, entry.0))
}

// The location of a part of an object, as a row.
fn spot_row(scene: &Scene<'_>, key: ObjectKey, path: &[PathStep]) -> Option<u64>
    ensures { let g = sets_over scene.now in SameRow result (spot g.table g.space key path.now) }
{
    match scene.space.spot(scene.trees.types, key, path) {
        Some(location) => Some(u64::from(location)),
        None => None,
    }
}

// The row of a path in an instance of that number.
fn instance_row(
    scene: &Scene<'_>,
    memory: &[Instance],
    instance: u32,
    path: &[PathStep],
) -> Option<u64>
    ensures { SameRow result (instance_row (sets_over scene.now) path.now (slice_get memory.now instance)) }
{
    match memory.get(instance as usize) {
        Some(inst) => spot_row(scene, inst.key, path),
        None => None,
    }
}

// The row of a place in memory: that of its location.
fn place_row(scene: &Scene<'_>, memory: &[Instance], place: &Cell) -> Option<u64>
    ensures { SameRow result (place_row (sets_over scene.now) memory.now place.now) }
{
    match place {
        Cell::Pointer { instance, path, .. } => instance_row(
            scene,
            memory,
            *instance,
            path.as_slice(),
        ),
        Cell::Unset | Cell::Number(_) | Cell::Null | Cell::Function(_) => None,
    }
}

// Whether a pointer that was put into a cell is in the row of its place.
fn is_store_covered(scene: &Scene<'_>, memory: &[Instance], store: &(Cell, Cell)) -> bool
    requires scene { IsScene scene.now }
    requires known { AreKnown (length scene.now.trees.types.now.terms) memory.now }
    ensures { IsTrue result ↔ StoreBy (sight_of scene.now) memory.now store.now }
{
    is_covered(scene, memory, place_row(scene, memory, &store.0), &store.1)
}

// The row of what lies outside, where the program is entered from there.
fn outside_row(scene: &Scene<'_>) -> Option<u64>
    ensures { result ≡ outside_row (sets_over scene.now) }
{
    match scene.space.first(ObjectKey::Outside) {
        Some(l) => Some(u64::from(l)),
        None => None,
    }
}

// Whether what was handed over is in the set of a row.
fn are_in_row(
    scene: &Scene<'_>,
    memory: &[Instance],
    row: Option<u64>,
    handed: &[(TypeId, Cell)],
) -> bool
    requires scene { IsScene scene.now }
    requires known { AreKnown (length scene.now.trees.types.now.terms) memory.now }
    ensures { IsTrue result ↔ All (λ entry. CellBy (sets_over scene.now) memory.now row entry.1) handed.now }
{
    handed
        .iter()
        .all(|entry| is_covered(scene, memory, row, &entry.1))
}

// Whether the function that a step noted is a target of its call.
fn is_noted(scene: &Scene<'_>, target: Option<(u32, ObjectKey)>) -> bool
    requires { IsScene scene.now }
    ensures { IsTrue result ↔ NotedBy (sight_of scene.now) target }
{
    match target {
        Some((n, key)) => is_target_at(scene, n, key),
        None => true,
    }
}

/// Whether each frame is covered.
#[tactic(auto, unfolding(crate::specs::Frames::FramesBy))]
pub fn are_frames_covered(scene: &Scene<'_>, memory: &[Instance], frames: &[Frame]) -> bool
    requires scene { IsScene scene.now }
    requires known { AreKnown (length scene.now.trees.types.now.terms) memory.now }
    ensures { IsTrue result ↔ FramesBy (sight_of scene.now) memory.now frames.now }
{
    frames
        .iter()
        .all(|frame| is_frame_covered(scene, memory, frame))
}

/// Whether each function that is kept for the end is covered.
#[tactic(auto, unfolding(crate::specs::Frames::KeptAll))]
pub fn are_kept_covered(scene: &Scene<'_>, kept: &[(ObjectKey, u32)]) -> bool
    requires { IsScene scene.now }
    ensures { IsTrue result ↔ KeptAll (sight_of scene.now) kept.now }
{
    kept.iter().all(|entry| is_kept_covered(scene, entry))
}

/// Whether what the last step noted is covered.
#[tactic(auto, unfolding(crate::specs::Frames::NotesBy))]
pub fn are_notes_covered(scene: &Scene<'_>, memory: &[Instance], notes: &Notes) -> bool
    requires scene { IsScene scene.now }
    requires known { AreKnown (length scene.now.trees.types.now.terms) memory.now }
    ensures { IsTrue result ↔ NotesBy (sight_of scene.now) memory.now notes.now }
{
    is_noted(scene, notes.target)
        && notes
            .stores
            .as_slice()
            .iter()
            .all(|store| is_store_covered(scene, memory, store))
}

/// Whether each pointer and function that was handed over is in the row of what lies outside.
#[tactic(auto, unfolding(crate::specs::Frames::HandedAll))]
pub fn are_handed_covered(scene: &Scene<'_>, memory: &[Instance], handed: &[(TypeId, Cell)]) -> bool
    requires scene { IsScene scene.now }
    requires known { AreKnown (length scene.now.trees.types.now.terms) memory.now }
    ensures { IsTrue result ↔ HandedAll (sight_of scene.now) memory.now handed.now }
{
    are_in_row(scene, memory, outside_row(scene), handed)
}

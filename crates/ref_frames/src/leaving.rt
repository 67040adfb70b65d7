// A function is left, and the program ends.

ghost use Rattle.std.specs.Prelude.{◌≡◌, ◌∷◌, [], List, true, OnOk, OnErr, IfOk, slice_get};
ghost use Rattle.core_tree.specs.Range.{InRange};
ghost use Rattle.core_tree.specs.Seen.{core_of};
ghost use Rattle.c_types.specs.Trees.{IntegerType};
ghost use Rattle.row_numbers.specs.Functions.{entity_in};
ghost use Rattle.ref_cells.specs.Numbers.{converted};
ghost use Rattle.ref_state.specs.declared.frames.Frame.{Frame};
ghost use Rattle.ref_state.specs.Changes.{ended_all};
ghost use Rattle.ref_state.specs.Values.{cell_of};
ghost use Rattle.ref_frames.specs.Frames.{all_ended, caller_given, finished, given_by, handed_over, is_main_in};
ghost use Rattle.ref_frames.specs.Frames.{left_frame, left_start, result_of, status_by};

use crate::frames::depth;
use crate::tops::settle;
use c_types::key::ObjectKey;
use c_types::term::{OutOfMemory, Term, TypeId};
use core_tree::Entity;
use core_tree::trees::Trees;
use pta_base::Listing;
use ref_cells::cells::{Cell, Value};
use ref_mem::memory::Memory;
use ref_state::doors::end_all;
use ref_state::frames::{Frame, Frames};
use ref_state::state::State;
use ref_state::values::{cell_of, scalar_of};
use row_numbers::functions::{Role, plays};
use std::alloc::Global;

// Whether a function is the one that starts the program.
fn is_main(trees: &Trees<'_>, key: ObjectKey) -> bool
    ensures { result ≡ is_main_in (entity_in (core_of trees.now) key) }
{
    match key {
        ObjectKey::Entity(e) => is_main_at(trees.entities, e),
        ObjectKey::Text(_) | ObjectKey::Call(_) | ObjectKey::Library(_) => false,
        ObjectKey::Star(_) | ObjectKey::Function(_) | ObjectKey::Varargs(_) => false,
        ObjectKey::Outside => false,
    }
}

// Whether an entity is the function that starts the program.
fn is_main_at(entities: &[Entity], e: u32) -> bool
    ensures { result ≡ is_main_in (slice_get entities.now e) }
{
    match entities.get(e as usize) {
        Some(entity) => plays(Role::Main, entity),
        None => false,
    }
}

// What a call gets where a function is left: 0 from main that ends without a value.
fn given_by(
    alloc: Global,
    trees: &Trees<'_>,
    function: ObjectKey,
    value: Value,
) -> Result<Value, OutOfMemory>
    ensures { IfOk result (λ given. given ≡ given_by (core_of trees.now) function value) }
{
    if value.cells.as_slice().is_empty() && is_main(trees, function) {
        Value::one(alloc, Cell::Number(0))
    } else {
        Ok(value)
    }
}

// A number as an int.
fn as_int(n: i128) -> i32
    ensures { result ≡ converted (IntegerType 4 4 true) n }
{
    let low = n.rem_euclid(4294967296);
    if low < 2147483648 {
        low as i32
    } else {
        (low - 4294967296) as i32
    }
}

// The status by what main gives.
fn status_of(value: &Value) -> i32
    ensures { result ≡ status_by (cell_of value.now) }
{
    match cell_of(value) {
        Some(Cell::Number(n)) => as_int(*n),
        Some(Cell::Unset | Cell::Null | Cell::Function(_) | Cell::Pointer { .. }) => 0,
        None => 0,
    }
}

// Every frame is left: their instances end.
fn end_frames(memory: &mut Memory, frames: &mut Frames)
    ensures memory { memory.new ≡ all_ended memory.old frames.old }
    ensures frames { frames.new ≡ [] }
{
    while let Some(frame) = frames.pop() {
        end_all(memory, frame.instances.as_slice());
    }
}

/// The program ends with a status: every frame is left. Where it ends at once, no function is kept.
pub fn finish(alloc: Global, state: &mut State, status: i32, at_once: bool)
    ensures { state.new ≡ finished state.old status at_once }
{
    end_frames(&mut state.memory, &mut state.frames);
    if at_once {
        state.kept = Listing::new(alloc);
    }
    state.status = Some(status);
}

// The top frame goes, and its instances end.
fn end_top(memory: &mut Memory, frames: &mut Frames)
    ensures { (f : Frame) (rest : List Frame) → frames.old ≡ f ∷ rest →
        (memory.new ≡ ended_all memory.old f.instances) × (frames.new ≡ rest) }
{
    if let Some(frame) = frames.pop() {
        end_all(memory, frame.instances.as_slice());
    }
}

// The top frame goes, and the value of a node to the frame below it. At `Err` nothing has changed.
fn give_back(
    alloc: Global,
    memory: &mut Memory,
    frames: &mut Frames,
    n: u32,
    value: Value,
) -> Result<(), OutOfMemory>
    ensures ok { (f : Frame) (rest : List Frame) → frames.old ≡ f ∷ rest →
        OnOk result ((memory.new ≡ ended_all memory.old f.instances) × (frames.new ≡ caller_given n value rest)) }
    ensures err { OnErr result ((memory.new ≡ memory.old) × (frames.new ≡ frames.old)) }
{
    if depth(frames) > 1 {
        settle(alloc, frames, 1, n, value)?;
    }
    end_top(memory, frames);
    Ok(())
}

// The type of what a function gives.
fn result_of(trees: &Trees<'_>, function: ObjectKey) -> Option<TypeId>
    requires { InRange (core_of trees.now) }
    ensures { result ≡ result_of (core_of trees.now) (entity_in (core_of trees.now) function) }
{
    match function {
        ObjectKey::Entity(e) => result_at(trees, e),
        ObjectKey::Text(_) | ObjectKey::Call(_) | ObjectKey::Library(_) => None,
        ObjectKey::Star(_) | ObjectKey::Function(_) | ObjectKey::Varargs(_) => None,
        ObjectKey::Outside => None,
    }
}

// The type of what the function of an entity gives.
fn result_at(trees: &Trees<'_>, e: u32) -> Option<TypeId>
    requires { InRange (core_of trees.now) }
    ensures { result ≡ result_of (core_of trees.now) (slice_get trees.now.entities.now e) }
{
    match trees.entities.get(e as usize) {
        Some(entity) => match trees.types.term(entity.ty) {
            Term::Function { result, .. } => Some(*result),
            _ => None,
        },
        None => None,
    }
}

/// Hands over a pointer that isn't null, or a function, with its type. At `Err` nothing has changed.
pub fn hand_over(
    alloc: Global,
    handed: &mut Listing<(TypeId, Cell)>,
    ty: Option<TypeId>,
    cell: &Cell,
) -> Result<(), OutOfMemory>
    ensures ok { OnOk result (handed.new ≡ handed_over handed.old ty cell.now) }
    ensures err { OnErr result (handed.new ≡ handed.old) }
{
    let Some(id) = ty else {
        return Ok(());
    };
    match cell {
        Cell::Pointer { .. } | Cell::Function(_) => {
            let copy = cell.copy(alloc)?;
            handed.push((id, copy))?;
            Ok(())
        }
        Cell::Unset | Cell::Number(_) | Cell::Null => Ok(()),
    }
}

// The top frame goes, of a function that the start entered. At `Err` nothing has changed.
fn leave_start(
    alloc: Global,
    trees: &Trees<'_>,
    entries: &[u32],
    state: &mut State,
    function: ObjectKey,
    value: &Value,
) -> Result<(), OutOfMemory>
    requires { InRange (core_of trees.now) }
    ensures ok { (f : Frame) (rest : List Frame) → state.old.frames ≡ f ∷ rest → f.function ≡ function →
        OnOk result (state.new ≡ left_start (core_of trees.now) entries.now state.old f rest value.now) }
    ensures err { OnErr result (state.new ≡ state.old) }
{
    match entries {
        [] => {
            finish(alloc, state, status_of(value), false);
            Ok(())
        }
        [_, ..] => {
            let cell = scalar_of(alloc, value)?;
            let ty = result_of(trees, function);
            hand_over(alloc, &mut state.handed, ty, &cell)?;
            end_top(&mut state.memory, &mut state.frames);
            Ok(())
        }
    }
}

/// The top frame is left with a value, which goes to the call that entered it. Where the start entered it, `main` ends the
/// program with the value as the status, and one of these entries hands over a pointer that it gives. At `Err` nothing has
/// changed.
pub fn leave(
    alloc: Global,
    trees: &Trees<'_>,
    entries: &[u32],
    state: &mut State,
    value: Value,
) -> Result<(), OutOfMemory>
    requires { InRange (core_of trees.now) }
    ensures ok { (f : Frame) (rest : List Frame) → state.old.frames ≡ f ∷ rest →
        OnOk result (state.new ≡ left_frame (core_of trees.now) entries.now state.old f rest value) }
    ensures err { OnErr result (state.new ≡ state.old) }
{
    let Some(frame) = state.frames.top() else {
        return Ok(());
    };
    let function = frame.function;
    match (frame.call, frame.by) {
        (Some(n), _) => {
            let given = given_by(alloc, trees, function, value)?;
            give_back(alloc, &mut state.memory, &mut state.frames, n, given)
        }
        (None, Some(_)) => {
            end_top(&mut state.memory, &mut state.frames);
            Ok(())
        }
        (None, None) => leave_start(alloc, trees, entries, state, function, &value),
    }
}

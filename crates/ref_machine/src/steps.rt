// One step of the top frame.

ghost use Rattle.std.specs.Prelude.{◌≡◌, ◌<◌, false, [], ◌∷◌, List, Result, Ok, OnErr, length, slice_get};
ghost use Rattle.core_tree.specs.Seen.{core_of};
ghost use Rattle.ref_cells.specs.Answers.{Gives};
ghost use Rattle.ref_cells.specs.Places.{AreKnown};
ghost use Rattle.ref_cells.specs.declared.cells.Cell.TheVariants.{Pointer};
ghost use Rattle.ref_cells.specs.declared.cells.Reason.{Reason};
ghost use Rattle.ref_mem.specs.Reads.{one_cell};
ghost use Rattle.ref_elements.specs.Outcomes.{gives};
ghost use Rattle.ref_state.specs.declared.frames.Frame.{Frame};
ghost use Rattle.ref_state.specs.Items.{top_left, top_values};
ghost use Rattle.ref_state.specs.declared.state.State.{State};
ghost use Rattle.ref_state.specs.ref_types.Types.{library_ids};
ghost use Rattle.ref_frames.specs.Made.{IsRunning, seen};
ghost use Rattle.ref_calls.specs.Outcomes.{Steps, Goes, outcome};
ghost use Rattle.ref_calls.specs.Reached.{reached};
ghost use Rattle.ref_start.specs.Handed.{AreRead};
ghost use Rattle.ref_blocks.specs.Plans.{IsPlan};
ghost use Rattle.ref_statements.specs.Made.{IsWorld};
ghost use Rattle.ref_statements.specs.Nodes.{do_row, wait_row};
ghost use Rattle.ref_statements.specs.Rows.{computes};
ghost use Rattle.ref_machine.specs.Standing.{AreStanding};
ghost use Rattle.ref_machine.specs.Step.{top_items, placed, target_of, is_direct, called, call_row, calls, takes, waited};
ghost use Rattle.ref_machine.specs.Step.{leaves, item_step, outside_step};

use crate::standing::standing_at;
use c_types::key::ObjectKey;
use c_types::term::OutOfMemory;
use call_sites::calls::is_call;
use core_tree::trees::Trees;
use pta_base::Listing;
use ref_blocks::plan::Plan;
use ref_calls::calls::named_callee;
use ref_calls::ending::end_step;
use ref_calls::library::library_row;
use ref_calls::lists::{is_next, next_row};
use ref_calls::reached::{Target, reached};
use ref_cells::cells::{MemFault, Reason, Value};
use ref_frames::entering::{Entry, enter, entered};
use ref_frames::frames::{no_frame, replace};
use ref_frames::leaving::leave;
use ref_frames::running::Running;
use ref_frames::tops::replace_item;
use ref_start::entries::starts;
use ref_start::handed::HandedPlaces;
use ref_start::standing::{Standing, place_value};
use ref_state::items::Item;
use ref_state::notes::Notes;
use ref_state::ref_types::types::LibraryTypes;
use ref_state::state::{State, StepAnswer};
use ref_statements::nodes::{do_row, wait_row};
use ref_statements::rows::World;

// The top item is a node that is done, by its row.
fn does_row(
    running: &Running<'_>,
    plan: &Plan,
    state: &mut State,
    n: u32,
    word: u64,
) -> Result<Notes, MemFault>
    requires running { IsRunning running.now }
    requires plan { IsPlan (core_of running.now.trees) plan.now }
    requires memory { AreKnown (length running.now.trees.types.now.terms) state.old.memory }
    requires frames { 0 < length state.old.frames }
    requires values { top_values (top_items state.old.frames) ≡ [] }
    ensures row { (f : Frame) (rest : List Frame) → state.old.frames ≡ f ∷ rest →
        Gives (λ notes. record state.new { notes = notes }) result
        (placed state.old rest (do_row (core_of running.now.trees) state.old.memory f n word)) }
    ensures err { OnErr result (state.new ≡ state.old) }
{
    let world = World {
        alloc: running.alloc,
        trees: running.trees,
        plan,
    };
    let mut frame = replace(&mut state.frames, 0, no_frame(running.alloc));
    let done = do_row(&world, &mut state.memory, &mut frame, n, word);
    let _none = replace(&mut state.frames, 0, frame);
    match done {
        Ok(stores) => Ok(Notes::of(stores)),
        Err(fault) => Err(fault),
    }
}

// The top item is a node that names an object of the whole run, which has that instance.
fn names(running: &Running<'_>, state: &mut State, n: u32, i: u32) -> Result<Notes, MemFault>
    requires frames { 0 < length state.old.frames }
    ensures row { (f : Frame) (rest : List Frame) → state.old.frames ≡ f ∷ rest →
        Gives (λ notes. record state.new { notes = notes }) result
        (placed state.old rest (computes f n (gives state.old.memory (one_cell (Pointer i [] false))))) }
    ensures err { OnErr result (state.new ≡ state.old) }
{
    let alloc = running.alloc;
    let value = place_value(alloc, i)?;
    let mut frame = replace(&mut state.frames, 0, no_frame(alloc));
    let done = frame.items.settle(n, value);
    let _none = replace(&mut state.frames, 0, frame);
    match done {
        Ok(()) => Ok(Notes::none(alloc)),
        Err(_) => Err(MemFault::OutOfMemory),
    }
}

// The top item is a node that is done.
fn does(
    running: &Running<'_>,
    plan: &Plan,
    standing: &Standing,
    state: &mut State,
    n: u32,
    word: u64,
) -> Result<Notes, MemFault>
    requires running { IsRunning running.now }
    requires plan { IsPlan (core_of running.now.trees) plan.now }
    requires memory { AreKnown (length running.now.trees.types.now.terms) state.old.memory }
    requires standing { AreStanding standing.now state.old.memory }
    requires frames { 0 < length state.old.frames }
    requires values { top_values (top_items state.old.frames) ≡ [] }
    ensures row { (f : Frame) (rest : List Frame) → state.old.frames ≡ f ∷ rest →
        Gives (λ notes. record state.new { notes = notes }) result
        (placed state.old rest (do_row (core_of running.now.trees) state.old.memory f n word)) }
    ensures err { OnErr result (state.new ≡ state.old) }
{
    match standing_at(&running.trees, standing, state, n) {
        Some(i) => names(running, state, n, i),
        None => does_row(running, plan, state, n, word),
    }
}

// The top item is a node that waits, and no call whose operands are there.
fn waits(
    running: &Running<'_>,
    plan: &Plan,
    state: &mut State,
    n: u32,
    word: u64,
) -> Result<Notes, MemFault>
    requires running { IsRunning running.now }
    requires plan { IsPlan (core_of running.now.trees) plan.now }
    requires memory { AreKnown (length running.now.trees.types.now.terms) state.old.memory }
    requires frames { 0 < length state.old.frames }
    ensures row { (f : Frame) (rest : List Frame) → state.old.frames ≡ f ∷ rest →
        Gives (λ notes. record state.new { notes = notes }) result
        (placed state.old rest
        (wait_row (core_of running.now.trees) state.old.memory f n (top_left f.items) (top_values f.items) word)) }
    ensures err { OnErr result (state.new ≡ state.old) }
{
    let world = World {
        alloc: running.alloc,
        trees: running.trees,
        plan,
    };
    let mut frame = replace(&mut state.frames, 0, no_frame(running.alloc));
    let done = wait_row(&world, &mut state.memory, &mut frame, n, word);
    let _none = replace(&mut state.frames, 0, frame);
    match done {
        Ok(stores) => Ok(Notes::of(stores)),
        Err(fault) => Err(fault),
    }
}

// Whether a node is a call whose operands are all there.
fn calls(trees: &Trees<'_>, n: u32, operands: &[u32]) -> bool
    ensures { result ≡ calls (core_of trees.now) n operands.now }
{
    match trees.nodes.get(n as usize) {
        Some(node) => operands.is_empty() && is_call(&node.kind),
        None => false,
    }
}

// Whether a node takes the next one of a list, and its operand is there.
fn takes(trees: &Trees<'_>, n: u32, operands: &[u32]) -> bool
    ensures { result ≡ takes (core_of trees.now) n operands.now }
{
    match trees.nodes.get(n as usize) {
        Some(node) => operands.is_empty() && is_next(&node.kind),
        None => false,
    }
}

// The target of a call that isn't by a function's name.
fn target_of(trees: &Trees<'_>, n: u32, key: ObjectKey) -> Option<(u32, ObjectKey)>
    ensures { result ≡ target_of (is_direct (core_of trees.now) (slice_get trees.now.nodes.now n)) n key }
{
    let Some(node) = trees.nodes.get(n as usize) else {
        return Some((n, key));
    };
    match named_callee(trees.nodes, node.children.as_slice()) {
        Some(_) => None,
        None => Some((n, key)),
    }
}

// A call of a defined function enters it.
fn call_defined(
    running: &Running<'_>,
    state: &mut State,
    n: u32,
    function: u32,
    arguments: &[Value],
) -> Result<Notes, MemFault>
    requires running { IsRunning running.now }
    ensures row { (f : Frame) (rest : List Frame) → state.old.frames ≡ f ∷ rest →
        Gives (λ notes. record state.new { notes = notes }) result
        (called (seen running.now) state.old f rest n (ObjectKey.Entity function) arguments.now) }
    ensures err { OnErr result (state.new ≡ state.old) }
{
    let entry = Entry {
        function,
        call: Some(n),
        by: None,
    };
    let count = state.memory.instances().len();
    let made = entered(running, count, entry, arguments)?;
    let stores = enter(&mut state.memory, &mut state.frames, made)?;
    let target = target_of(&running.trees, n, ObjectKey::Entity(function));
    Ok(Notes { target, stores })
}

// A call of a library function is pending.
fn call_library(
    running: &Running<'_>,
    state: &mut State,
    n: u32,
    k: u32,
    arguments: Listing<Value>,
) -> Notes
    requires frames { 0 < length state.old.frames }
    requires items { 0 < length (top_items state.old.frames) }
    ensures { (f : Frame) (rest : List Frame) → state.old.frames ≡ f ∷ rest →
        called (seen running.now) state.old f rest n (ObjectKey.Function k) arguments ≡ Ok (record state.new { notes = result }) }
{
    let item = Item::Library {
        node: n,
        function: k,
        arguments,
    };
    replace_item(running.alloc, &mut state.frames, item);
    Notes {
        target: target_of(&running.trees, n, ObjectKey::Function(k)),
        stores: Listing::new(running.alloc),
    }
}

// A call of a function with these arguments: it is entered, or pending.
fn call(
    running: &Running<'_>,
    state: &mut State,
    n: u32,
    key: ObjectKey,
    arguments: Listing<Value>,
) -> Result<Notes, MemFault>
    requires running { IsRunning running.now }
    requires frames { 0 < length state.old.frames }
    requires items { 0 < length (top_items state.old.frames) }
    ensures row { (f : Frame) (rest : List Frame) → state.old.frames ≡ f ∷ rest →
        Gives (λ notes. record state.new { notes = notes }) result
        (called (seen running.now) state.old f rest n key arguments) }
    ensures err { OnErr result (state.new ≡ state.old) }
{
    match key {
        ObjectKey::Entity(function) => {
            call_defined(running, state, n, function, arguments.as_slice())
        }
        ObjectKey::Function(k) => Ok(call_library(running, state, n, k, arguments)),
        ObjectKey::Text(_) | ObjectKey::Call(_) | ObjectKey::Library(_) => {
            Err(MemFault::Stop(Reason::BadCall))
        }
        ObjectKey::Star(_) | ObjectKey::Varargs(_) | ObjectKey::Outside => {
            Err(MemFault::Stop(Reason::BadCall))
        }
    }
}

// The function that the call on top reaches, with its arguments.
fn reached_by(running: &Running<'_>, state: &State, n: u32) -> Result<Target, MemFault>
    requires running { IsRunning running.now }
    requires frames { 0 < length state.now.frames }
    requires node { n < length running.now.trees.nodes.now }
    ensures { (f : Frame) (rest : List Frame) → state.now.frames ≡ f ∷ rest →
        Gives (λ target. target) result (reached (core_of running.now.trees) n (top_values f.items)) }
{
    match state.frames.top() {
        Some(frame) => reached(running.alloc, &running.trees, n, frame.items.values()),
        None => Err(MemFault::OutOfMemory),
    }
}

// A call whose operands are all there: the function that it reaches is entered, or pending.
fn call_row(running: &Running<'_>, state: &mut State, n: u32) -> Result<Notes, MemFault>
    requires running { IsRunning running.now }
    requires frames { 0 < length state.old.frames }
    requires node { n < length running.now.trees.nodes.now }
    requires items { 0 < length (top_items state.old.frames) }
    ensures row { (f : Frame) (rest : List Frame) → state.old.frames ≡ f ∷ rest →
        Gives (λ notes. record state.new { notes = notes }) result
        (call_row (seen running.now) state.old f rest n (top_values f.items)) }
    ensures err { OnErr result (state.new ≡ state.old) }
{
    match reached_by(running, state, n) {
        Ok(target) => call(running, state, n, target.key, target.arguments),
        Err(fault) => Err(fault),
    }
}

// The top frame is left with a value; it notes nothing.
fn leaves(running: &Running<'_>, state: &mut State, value: Value) -> Result<StepAnswer, OutOfMemory>
    requires { IsRunning running.now }
    ensures { (f : Frame) (rest : List Frame) → state.old.frames ≡ f ∷ rest →
        Steps result state.old state.new (Goes (leaves (seen running.now) state.old f rest value)) }
{
    leave(running.alloc, &running.trees, running.entries, state, value)?;
    state.notes = Notes::none(running.alloc);
    Ok(StepAnswer::Went)
}

// What a row at a node answers as a step.
fn answers(
    state: &mut State,
    n: u32,
    row: Result<Notes, MemFault>,
) -> Result<StepAnswer, OutOfMemory>
    ensures { (before : State) (given : Result State Reason) → Gives (λ notes. record state.old { notes = notes }) row given →
        OnErr row (state.old ≡ before) → Steps result before state.new (outcome n given) }
{
    match row {
        Ok(notes) => {
            state.notes = notes;
            Ok(StepAnswer::Went)
        }
        Err(MemFault::Stop(reason)) => Ok(StepAnswer::Stopped(reason, n)),
        Err(MemFault::OutOfMemory) => Err(OutOfMemory),
    }
}

// The row of a node that waits.
fn waited(
    running: &Running<'_>,
    plan: &Plan,
    state: &mut State,
    n: u32,
    word: u64,
    is_ready: bool,
    is_next: bool,
) -> Result<Notes, MemFault>
    requires running { IsRunning running.now }
    requires plan { IsPlan (core_of running.now.trees) plan.now }
    requires memory { AreKnown (length running.now.trees.types.now.terms) state.old.memory }
    requires frames { 0 < length state.old.frames }
    requires items { 0 < length (top_items state.old.frames) }
    requires ready { is_ready ≡ calls (core_of running.now.trees) n (top_left (top_items state.old.frames)) }
    requires next { is_next ≡ takes (core_of running.now.trees) n (top_left (top_items state.old.frames)) }
    ensures row { (f : Frame) (rest : List Frame) → state.old.frames ≡ f ∷ rest →
        Gives (λ notes. record state.new { notes = notes }) result
        (waited (seen running.now) state.old f rest n (top_left f.items) (top_values f.items) word) }
    ensures err { OnErr result (state.new ≡ state.old) }
{
    if is_ready {
        call_row(running, state, n)
    } else if is_next {
        next_row(running, state, n)
    } else {
        waits(running, plan, state, n, word)
    }
}

/// A step of the top frame. After a stop and at `Err` nothing has changed.
pub fn frame_step(
    running: &Running<'_>,
    plan: &Plan,
    standing: &Standing,
    state: &mut State,
    word: u64,
) -> Result<StepAnswer, OutOfMemory>
    requires running { IsRunning running.now }
    requires plan { IsPlan (core_of running.now.trees) plan.now }
    requires memory { AreKnown (length running.now.trees.types.now.terms) state.old.memory }
    requires standing { AreStanding standing.now state.old.memory }
    requires frames { 0 < length state.old.frames }
    ensures { (f : Frame) (rest : List Frame) → state.old.frames ≡ f ∷ rest →
        Steps result state.old state.new (item_step (seen running.now) state.old f rest f.items word) }
{
    let alloc = running.alloc;
    let Some(frame) = state.frames.top() else {
        return Err(OutOfMemory);
    };
    match frame.items.top() {
        None => leaves(running, state, Value::none(alloc)),
        Some(Item::Result(value)) => {
            let value = value.copy(alloc)?;
            leaves(running, state, value)
        }
        Some(Item::Do(n)) => {
            let n = *n;
            let row = does(running, plan, standing, state, n, word);
            answers(state, n, row)
        }
        Some(Item::Wait { node, left, .. }) => {
            let n = *node;
            let is_ready = calls(&running.trees, n, left.as_slice());
            let is_next = takes(&running.trees, n, left.as_slice());
            let row = waited(running, plan, state, n, word, is_ready, is_next);
            answers(state, n, row)
        }
        Some(Item::Library { node, function, .. }) => {
            let (n, k) = (*node, *function);
            let row = library_row(running, state, n, k, word);
            answers(state, n, row)
        }
    }
}

/// A step of a program without a frame: it begins, or is entered from outside, or is at its end. What is kept of the pointers that
/// were handed over stays right for what was handed over before the step.
pub fn outside_step(
    running: &Running<'_>,
    library: LibraryTypes,
    kept: &mut HandedPlaces,
    state: &mut State,
    word: u64,
) -> Result<StepAnswer, OutOfMemory>
    requires running { IsRunning running.now }
    requires library { library ≡ library_ids running.now.characters.0 }
    requires kept { AreRead running.now.trees.types.now state.old.handed kept.old }
    ensures step { Steps result state.old state.new (outside_step (seen running.now) state.old state.old.status word) }
    ensures kept { AreRead running.now.trees.types.now state.old.handed kept.new }
{
    if let Some(status) = state.status {
        return end_step(running, state, status);
    }
    match starts(running, library, kept, state, word) {
        Ok(stores) => {
            state.notes = Notes::of(stores);
            Ok(StepAnswer::Went)
        }
        Err(MemFault::Stop(reason)) => Ok(StepAnswer::Stopped(reason, 0)),
        Err(MemFault::OutOfMemory) => Err(OutOfMemory),
    }
}

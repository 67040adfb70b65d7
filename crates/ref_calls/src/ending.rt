// Steps at the program's end (C11 7.22.4.2, 7.22.4.4).

ghost use Rattle.std.specs.Prelude.{◌≡◌, [], ◌∷◌, None, Some, OnOk, OnErr};
ghost use Rattle.core_tree.specs.Range.{InRange};
ghost use Rattle.core_tree.specs.Seen.{core_of};
ghost use Rattle.call_sites.specs.Signatures.{at_end};
ghost use Rattle.ref_elements.specs.Types.{same_type};
ghost use Rattle.ref_cells.specs.Answers.{Gives};
ghost use Rattle.ref_frames.specs.Made.{IsRunning, seen};
ghost use Rattle.ref_calls.specs.Calls.{signature_of};
ghost use Rattle.ref_calls.specs.Ending.{enters, but_last, last_of, pending_frame, kept_entered, end_step};
ghost use Rattle.ref_calls.specs.Outcomes.{Steps};

use crate::calls::function_type;
use crate::signatures::{called, is_at_end};
use c_types::key::ObjectKey;
use c_types::term::OutOfMemory;
use core_tree::trees::Trees;
use pta_base::Listing;
use ref_cells::cells::{MemFault, Reason, Value};
use ref_frames::entering::{Entry, enter, entered};
use ref_frames::running::Running;
use ref_state::frames::{Frame, Frames};
use ref_state::items::{Item, Items};
use ref_state::notes::Notes;
use ref_state::state::{State, StepAnswer};
use std::alloc::Global;
use std::mem;

// The number of `atexit` in the library.
const ATEXIT: u32 = 24;

/// A function is entered, and nothing is noted. At `Err` nothing has changed.
pub fn enters(
    running: &Running<'_>,
    state: &mut State,
    entry: Entry,
    arguments: &[Value],
) -> Result<(), MemFault>
    requires { IsRunning running.now }
    ensures row { Gives (λ _. record state.new { notes = record { target = None; stores = [] } }) result
        (enters (seen running.now) state.old entry arguments.now) }
    ensures err { OnErr result (state.new ≡ state.old) }
{
    let count = state.memory.instances().len();
    let made = entered(running, count, entry, arguments)?;
    let _stores = enter(&mut state.memory, &mut state.frames, made)?;
    Ok(())
}

// Whether a function is of the type of what is called at the end.
fn ends_right(trees: &Trees<'_>, key: ObjectKey) -> bool
    requires { InRange (core_of trees.now) }
    ensures { result ≡ same_type (signature_of (core_of trees.now) key) at_end }
{
    match function_type(trees, key) {
        Some(ty) => match called(trees.types, ty) {
            Some(of) => is_at_end(trees.types, of),
            None => false,
        },
        None => false,
    }
}

// A kept function of the library is pending in a frame of its own. At `Err` nothing has changed.
fn pend(alloc: Global, frames: &mut Frames, k: u32, n: u32) -> Result<(), OutOfMemory>
    ensures ok { OnOk result (frames.new ≡ pending_frame k n ∷ frames.old) }
    ensures err { OnErr result (frames.new ≡ frames.old) }
{
    let item = Item::Library {
        node: n,
        function: k,
        arguments: Listing::new(alloc),
    };
    let frame = Frame {
        function: ObjectKey::Function(k),
        call: None,
        by: Some(ATEXIT),
        instances: Listing::new(alloc),
        items: Items::one(alloc, item)?,
    };
    frames.push(frame)
}

// A function that was kept, by the call at a node, is entered. At `Err` nothing has changed.
fn enter_kept(
    running: &Running<'_>,
    state: &mut State,
    key: ObjectKey,
    n: u32,
) -> Result<(), MemFault>
    requires { IsRunning running.now }
    ensures row { Gives (λ _. record state.new { notes = record { target = None; stores = [] } }) result
        (kept_entered (seen running.now) state.old key n) }
    ensures err { OnErr result (state.new ≡ state.old) }
{
    match key {
        ObjectKey::Entity(function) => {
            let entry = Entry {
                function,
                call: None,
                by: Some(ATEXIT),
            };
            enters(running, state, entry, &[])
        }
        ObjectKey::Function(k) => {
            pend(running.alloc, &mut state.frames, k, n)?;
            Ok(())
        }
        ObjectKey::Text(_) | ObjectKey::Call(_) | ObjectKey::Library(_) => {
            Err(MemFault::Stop(Reason::BadCall))
        }
        ObjectKey::Star(_) | ObjectKey::Varargs(_) | ObjectKey::Outside => {
            Err(MemFault::Stop(Reason::BadCall))
        }
    }
}

// The function that was kept last goes. It takes no memory.
fn forget(alloc: Global, kept: &mut Listing<(ObjectKey, u32)>)
    ensures { kept.new ≡ but_last kept.old }
{
    let mut list = mem::replace(kept, Listing::new(alloc)).into_vec();
    let _last = list.pop();
    *kept = Listing::of(list);
}

/// A step at the program's end: the function that was kept last is called; where none is kept, the program has finished.
/// After another answer than Went, and want of memory, nothing has changed.
pub fn end_step(
    running: &Running<'_>,
    state: &mut State,
    status: i32,
) -> Result<StepAnswer, OutOfMemory>
    requires { IsRunning running.now }
    ensures { Steps result state.old state.new (end_step (seen running.now) state.old status (last_of state.old.kept)) }
{
    let Some(last) = state.kept.as_slice().last() else {
        return Ok(StepAnswer::Finished(status));
    };
    let (key, n) = *last;
    if !ends_right(&running.trees, key) {
        return Ok(StepAnswer::Stopped(Reason::BadCall, n));
    }
    match enter_kept(running, state, key, n) {
        Ok(()) => {
            forget(running.alloc, &mut state.kept);
            state.notes = Notes::none(running.alloc);
            Ok(StepAnswer::Went)
        }
        Err(MemFault::Stop(reason)) => Ok(StepAnswer::Stopped(reason, n)),
        Err(MemFault::OutOfMemory) => Err(OutOfMemory),
    }
}

// A pending call of a library function.

ghost use Rattle.std.specs.Prelude.{◌≡◌, ◌<◌, ◌∷◌, ◌++◌, List, None, IfSome, OnOk, OnErr, length, slice_get};
ghost use Rattle.core_tree.specs.Range.{InRange};
ghost use Rattle.core_tree.specs.Seen.{core_of};
ghost use Rattle.ref_cells.specs.Answers.{Gives};
ghost use Rattle.ref_cells.specs.Places.{AreKnown};
ghost use Rattle.ref_cells.specs.declared.cells.Value.{Value};
ghost use Rattle.ref_elements.specs.Types.{same_type};
ghost use Rattle.call_sites.specs.Signatures.{comparison};
ghost use Rattle.ref_calls.specs.Calls.{signature_of};
ghost use Rattle.ref_state.specs.declared.items.Item.{Item};
ghost use Rattle.ref_state.specs.declared.frames.Frame.{Frame};
ghost use Rattle.ref_state.specs.Items.{opened, below_filled};
ghost use Rattle.ref_state.specs.declared.items.Item.TheVariants.{Library};
ghost use Rattle.row_numbers.specs.Objects.{library_id};
ghost use Rattle.ref_cells.specs.declared.instance.Instance.{Instance};
ghost use Rattle.covering_laws.specs.calm_effects.Calm.{IsCalm};
ghost use Rattle.ref_frames.specs.Tops.{items_at};
ghost use Rattle.ref_frames.specs.Made.{IsRunning, seen};
ghost use Rattle.ref_calls.specs.Library.{named_by, object_of, result_in, term_in, performed, comparison_of, back_by};
ghost use Rattle.ref_calls.specs.Library.{kept_of, goes_by, library_row};

use crate::calls::{function_type, named_callee};
use crate::signatures::{called, is_comparison};
use c_types::key::ObjectKey;
use c_types::term::{OutOfMemory, Term, TypeId};
use core_tree::trees::Trees;
use pta_base::Listing;
use ref_cells::cells::{Cell, MemFault, Reason, Value};
use ref_elements::outcome::{LibOutcome, Next};
use ref_frames::entering::{Entry, enter, entered};
use ref_frames::leaving::finish;
use ref_frames::running::{Running, element_type};
use ref_frames::tops::{fill, open, push, shut};
use ref_lib::effect::effect;
use ref_mem::memory::Memory;
use ref_state::frames::Frames;
use ref_state::items::Item;
use ref_state::notes::Notes;
use ref_state::state::State;
use row_numbers::objects::library_number;

// The number of the library function that the call at a node names.
fn named_number(trees: &Trees<'_>, n: u32) -> Option<u32>
    ensures { result ≡ named_by (core_of trees.now) (slice_get trees.now.nodes.now n) }
{
    match trees.nodes.get(n as usize) {
        Some(node) => match named_callee(trees.nodes, node.children.as_slice()) {
            Some(e) => match trees.entities.get(e as usize) {
                Some(entity) => library_number(entity),
                None => None,
            },
            None => None,
        },
        None => None,
    }
}

// The object that a call gets from a library function: its own where it names the function.
fn object_of(trees: &Trees<'_>, n: u32, k: u32) -> ObjectKey
    ensures { result ≡ object_of (core_of trees.now) n k }
{
    match named_number(trees, n) {
        Some(number) => {
            if number == k {
                ObjectKey::Call(n)
            } else {
                ObjectKey::Star(k)
            }
        }
        None => ObjectKey::Star(k),
    }
}

// The type of a library function's result.
fn result_of(trees: &Trees<'_>, k: u32) -> Option<TypeId>
    requires { InRange (core_of trees.now) }
    ensures value { result ≡ result_in (term_in (core_of trees.now) (library_id k trees.now.entities.now)) }
    ensures known { IfSome result (λ id. id.0 < length trees.now.types.now.terms) }
{
    let id = function_type(trees, ObjectKey::Function(k))?;
    match trees.types.term(id) {
        Term::Function { result, .. } => Some(*result),
        Term::Void | Term::Bool | Term::Floating | Term::VaList | Term::Integer { .. } => None,
        Term::Array { .. } | Term::Pointer(_) | Term::Structure(_) | Term::Union(_) => None,
    }
}

// The effect of a library function that a node calls.
#[tactic(auto, unfolding(crate::specs::Library::performed))]
fn performed(
    running: &Running<'_>,
    memory: &mut Memory,
    n: u32,
    k: u32,
    arguments: &[Value],
    word: u64,
) -> Result<LibOutcome, MemFault>
    requires running { IsRunning running.now }
    requires memory { AreKnown (length running.now.trees.types.now.terms) memory.old }
    ensures value { Gives (λ o. record { memory = memory.new; outcome = o }) result
        (performed (seen running.now) memory.old n k arguments.now word) }
    ensures err { OnErr result (memory.new ≡ memory.old) }
{
    let trees = &running.trees;
    let Some(result) = result_of(trees, k) else {
        return Err(MemFault::Stop(Reason::Mismatch));
    };
    let key = object_of(trees, n, k);
    let fresh = (key, element_type(running, key));
    effect(
        running.alloc,
        memory,
        trees.types,
        k,
        fresh,
        result,
        arguments,
        word,
    )
}

// Whether a function is a comparison.
fn compares(trees: &Trees<'_>, key: ObjectKey) -> bool
    requires { InRange (core_of trees.now) }
    ensures { result ≡ same_type (signature_of (core_of trees.now) key) comparison }
{
    match function_type(trees, key) {
        Some(ty) => match called(trees.types, ty) {
            Some(of) => is_comparison(trees.types, of),
            None => false,
        },
        None => false,
    }
}

// The function that is called back: a comparison.
fn comparison_of(trees: &Trees<'_>, cell: Cell) -> Result<ObjectKey, Reason>
    requires { InRange (core_of trees.now) }
    ensures { result ≡ comparison_of (core_of trees.now) cell }
{
    match cell {
        Cell::Null => Err(Reason::NullUse),
        Cell::Function(key) => {
            if compares(trees, key) {
                Ok(key)
            } else {
                Err(Reason::BadCall)
            }
        }
        Cell::Unset | Cell::Number(_) | Cell::Pointer { .. } => Err(Reason::BadCall),
    }
}

// A function is called back by the library function of that number, at a node.
fn calls_back(
    running: &Running<'_>,
    state: &mut State,
    n: u32,
    by: u32,
    key: ObjectKey,
    arguments: Listing<Value>,
) -> Result<Notes, MemFault>
    requires running { IsRunning running.now }
    requires frames { 0 < length state.old.frames }
    ensures row { (f : Frame) (rest : List Frame) → state.old.frames ≡ f ∷ rest →
        Gives (λ notes. record state.new { notes = notes }) result
        (back_by (seen running.now) state.old f rest n by arguments key) }
    ensures err { OnErr result (state.new ≡ state.old) }
{
    let alloc = running.alloc;
    match key {
        ObjectKey::Entity(function) => {
            let entry = Entry {
                function,
                call: None,
                by: Some(by),
            };
            let count = state.memory.instances().len();
            let made = entered(running, count, entry, arguments.as_slice())?;
            let stores = enter(&mut state.memory, &mut state.frames, made)?;
            Ok(Notes::of(stores))
        }
        ObjectKey::Function(function) => {
            let item = Item::Library {
                node: n,
                function,
                arguments,
            };
            push(alloc, &mut state.frames, item)?;
            Ok(Notes::none(alloc))
        }
        ObjectKey::Text(_) | ObjectKey::Call(_) | ObjectKey::Library(_) => {
            Err(MemFault::Stop(Reason::BadCall))
        }
        ObjectKey::Star(_) | ObjectKey::Varargs(_) | ObjectKey::Outside => {
            Err(MemFault::Stop(Reason::BadCall))
        }
    }
}

// A function is kept for the program's end, by the call at a node. At `Err` nothing changes.
fn keep(kept: &mut Listing<(ObjectKey, u32)>, cell: Cell, n: u32) -> Result<(), OutOfMemory>
    ensures ok { OnOk result (kept.new ≡ kept.old ++ kept_of cell n) }
    ensures err { OnErr result (kept.new ≡ kept.old) }
{
    match cell {
        Cell::Function(key) => {
            kept.push((key, n))?;
            Ok(())
        }
        Cell::Unset | Cell::Number(_) | Cell::Null | Cell::Pointer { .. } => Ok(()),
    }
}

// The call that is pending is done: its value goes to the item below, for which a place is open.
fn is_done(
    running: &Running<'_>,
    state: &mut State,
    value: Value,
    stores: Listing<(Cell, Cell)>,
) -> Notes
    requires { 0 < length state.old.frames }
    ensures state { state.new ≡ record state.old { frames = items_at (below_filled value) 0 state.old.frames } }
    ensures notes { result ≡ record { target = None; stores = stores } }
{
    fill(running.alloc, &mut state.frames, value);
    Notes::of(stores)
}

// How a pending call goes on after its effect, where a place is open for its value. At `Err` the place goes.
fn goes_on(
    running: &Running<'_>,
    state: &mut State,
    n: u32,
    k: u32,
    outcome: LibOutcome,
) -> Result<Notes, MemFault>
    requires running { IsRunning running.now }
    requires frames { 0 < length state.old.frames }
    ensures row { (f : Frame) (rest : List Frame) → state.old.frames ≡ items_at (opened n) 0 (f ∷ rest) →
        Gives (λ notes. record state.new { notes = notes }) result
        (goes_by (seen running.now) (record state.old { frames = f ∷ rest }) f rest n k outcome.value outcome.stores outcome.next) }
    ensures err { (f : Frame) (rest : List Frame) → state.old.frames ≡ items_at (opened n) 0 (f ∷ rest) →
        OnErr result (state.new ≡ record state.old { frames = f ∷ rest }) }
    ensures calm { (before : List Instance) → IsCalm before state.old.memory outcome.next →
        OnErr result (state.old.memory ≡ before) }
{
    let alloc = running.alloc;
    let LibOutcome {
        value,
        stores,
        next,
    } = outcome;
    match next {
        Next::Done => Ok(is_done(running, state, value, stores)),
        Next::Again => {
            shut(alloc, &mut state.frames);
            Ok(Notes::of(stores))
        }
        Next::Calls { callee, arguments } => {
            shut(alloc, &mut state.frames);
            let key = comparison_of(&running.trees, callee)?;
            calls_back(running, state, n, k, key, arguments)
        }
        Next::Keeps(cell) => match keep(&mut state.kept, cell, n) {
            Ok(()) => Ok(is_done(running, state, value, stores)),
            Err(_) => {
                shut(alloc, &mut state.frames);
                Err(MemFault::OutOfMemory)
            }
        },
        Next::Ends { status, at_once } => {
            finish(alloc, state, status, at_once);
            Ok(Notes::of(stores))
        }
    }
}

// The effect of the call that is pending on top of a frame.
fn performed_on(
    running: &Running<'_>,
    memory: &mut Memory,
    frames: &Frames,
    n: u32,
    k: u32,
    word: u64,
) -> Result<LibOutcome, MemFault>
    requires running { IsRunning running.now }
    requires memory { AreKnown (length running.now.trees.types.now.terms) memory.old }
    ensures value { (f : Frame) (rest : List Frame) (arguments : List Value) (items : List Item) → frames.now ≡ f ∷ rest →
        f.items ≡ Library n k arguments ∷ items →
        Gives (λ o. record { memory = memory.new; outcome = o }) result
        (performed (seen running.now) memory.old n k arguments word) }
    ensures err { OnErr result (memory.new ≡ memory.old) }
{
    let Some(frame) = frames.top() else {
        return Err(MemFault::Stop(Reason::Mismatch));
    };
    match frame.items.top() {
        Some(Item::Library { arguments, .. }) => {
            performed(running, memory, n, k, arguments.as_slice(), word)
        }
        Some(Item::Do(_) | Item::Wait { .. } | Item::Result(_)) => {
            Err(MemFault::Stop(Reason::Mismatch))
        }
        None => Err(MemFault::Stop(Reason::Mismatch)),
    }
}

/// The effect of a pending call of a library function, the top item of the top frame. At `Err` nothing has changed.
#[tactic(auto, unfolding(crate::specs::Library::library_row))]
pub fn library_row(
    running: &Running<'_>,
    state: &mut State,
    n: u32,
    k: u32,
    word: u64,
) -> Result<Notes, MemFault>
    requires running { IsRunning running.now }
    requires memory { AreKnown (length running.now.trees.types.now.terms) state.old.memory }
    requires frames { 0 < length state.old.frames }
    ensures row { (f : Frame) (rest : List Frame) (arguments : List Value) (items : List Item) → state.old.frames ≡ f ∷ rest →
        f.items ≡ Library n k arguments ∷ items →
        Gives (λ notes. record state.new { notes = notes }) result
        (library_row (seen running.now) state.old f rest n k arguments word) }
    ensures err { (f : Frame) (rest : List Frame) (arguments : List Value) (items : List Item) → state.old.frames ≡ f ∷ rest →
        f.items ≡ Library n k arguments ∷ items → OnErr result (state.new ≡ state.old) }
{
    let alloc = running.alloc;
    open(alloc, &mut state.frames, n)?;
    match performed_on(running, &mut state.memory, &state.frames, n, k, word) {
        Ok(outcome) => goes_on(running, state, n, k, outcome),
        Err(fault) => {
            shut(alloc, &mut state.frames);
            Err(fault)
        }
    }
}

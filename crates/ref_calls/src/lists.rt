// The row of NextArg (C11 7.16.1.1).

ghost use Rattle.std.specs.Prelude.{◌≡◌, [], ◌∷◌, ◌+◌, ◌<◌, ◌^◌, true, List, Ok, IfOk, IfSome, OnErr, drop, length, reverse, slice_get};
ghost use Rattle.c_types.specs.declared.term.PathStep.TheVariants.{Index};
ghost use Rattle.c_types.specs.Table.{type_of};
ghost use Rattle.core_tree.specs.Range.{InRange};
ghost use Rattle.core_tree.specs.Seen.{core_of};
ghost use Rattle.ref_cells.specs.Answers.{Gives};
ghost use Rattle.ref_cells.specs.Cells.{under};
ghost use Rattle.ref_cells.specs.Places.{AreKnown};
ghost use Rattle.ref_state.specs.declared.frames.Frame.{Frame};
ghost use Rattle.ref_state.specs.Items.{top_values};
ghost use Rattle.ref_state.specs.Values as values;
ghost use Rattle.ref_frames.specs.Made.{IsRunning, seen};
ghost use Rattle.ref_calls.specs.Lists as spec;

use c_types::key::ObjectKey;
use c_types::table::TypeTable;
use c_types::term::{OutOfMemory, PathStep, Term, TypeId};
use core_tree::trees::Trees;
use core_tree::{Node, NodeKind};
use pta_base::Listing;
use ref_cells::cells::{Cell, MemFault, Reason, Value};
use ref_cells::instance::Instance;
use ref_cells::order::under;
use ref_cells::places::is_alike;
use ref_elements::outcome::number_value;
use ref_frames::running::Running;
use ref_frames::tops::{fill, open, shut};
use ref_mem::memory::Memory;
use ref_state::frames::{Frame, Frames};
use ref_state::notes::Notes;
use ref_state::state::State;
use ref_state::values::{cell_in, scalar_of};
use ref_values::memory::stores_at;
use std::alloc::Global;

/// What the next one of a list is: the place of the list, the list behind it, and the value.
#[derive(Drop)]
pub struct Taken {
    pub place: Cell,
    pub list: Value,
    pub value: Value,
}

/// Whether a node takes the next one of a list.
pub fn is_next(kind: &NodeKind) -> bool
    ensures { result ≡ spec.is_next kind.now }
{
    matches!(kind, NodeKind::NextArg)
}

// Whether a number stands in a list.
fn has(i: u32, list: &[u32]) -> bool
    ensures { result ≡ spec.has i list.now }
{
    list.iter().any(|j| *j == i)
}

// The call of the activation that made an instance, of activations of which the top one stands last.
fn call_over(i: u32, frames: &[Frame]) -> Option<u32>
    ensures { result ≡ spec.call_over i (reverse frames.now) }
{
    for k in (0..frames.len()).rev() {
        if has(i, frames[k].instances.as_slice()) {
            return frames[k].call;
        }
    }
    None
}

// The k-th child behind the first ones.
fn child_of(children: &[u32], first: usize, k: u64) -> Option<u32>
    ensures { result ≡ slice_get (drop first children.now) k }
{
    if first > children.len() {
        return None;
    }
    match children[first..].get(k as usize) {
        Some(child) => Some(*child),
        None => None,
    }
}

// That of a call.
fn call_child(nodes: &[Node], call: Option<u32>, first: usize, k: u64) -> Option<u32>
    ensures { result ≡ spec.call_child nodes.now call first k }
{
    match nodes.get(call? as usize) {
        Some(node) => child_of(node.children.as_slice(), first, k),
        None => None,
    }
}

// The node of the k-th argument that a function was passed past its parameters.
fn argument_node(
    running: &Running<'_>,
    frames: &Frames,
    i: u32,
    k: u64,
    key: ObjectKey,
) -> Option<u32>
    requires running { IsRunning running.now }
    ensures value { result ≡ spec.argument_node (seen running.now) frames.now i k key }
    ensures known { IfSome result (λ v. v < length running.now.trees.nodes.now) }
{
    match key {
        ObjectKey::Varargs(e) => {
            let parameters = running.parameters.get(e as usize)?;
            let call = call_over(i, frames.list.as_slice());
            call_child(
                running.trees.nodes,
                call,
                parameters.as_slice().len() + 1,
                k,
            )
        }
        ObjectKey::Entity(_) | ObjectKey::Text(_) | ObjectKey::Call(_) => None,
        ObjectKey::Library(_) | ObjectKey::Star(_) | ObjectKey::Function(_) => None,
        ObjectKey::Outside => None,
    }
}

// Whether an argument has a type like that.
fn is_argument(trees: &Trees<'_>, ty: TypeId, node: Option<u32>) -> bool
    requires range { InRange (core_of trees.now) }
    requires ty { ty.0 < length trees.now.types.now.terms }
    requires node { IfSome node (λ v. v < length trees.now.nodes.now) }
    ensures { result ≡ spec.is_argument (core_of trees.now) (type_of trees.now.types.now ty.0) node }
{
    match node {
        Some(v) => is_alike(trees.types, trees.nodes[v as usize].ty, ty),
        None => false,
    }
}

// Whether a type is a pointer.
fn is_pointer(types: &TypeTable, ty: TypeId) -> bool
    requires { ty.0 < length types.now.terms }
    ensures { result ≡ spec.points (type_of types.now ty.0) }
{
    match types.term(ty) {
        Term::Pointer(_) => true,
        Term::Void | Term::Bool | Term::Floating | Term::VaList | Term::Integer { .. } => false,
        Term::Array { .. } | Term::Function { .. } | Term::Structure(_) | Term::Union(_) => false,
    }
}

// A cell as a value of a type; only a pointer's points.
fn held_value(alloc: Global, types: &TypeTable, ty: TypeId, cell: &Cell) -> Result<Value, MemFault>
    requires { ty.0 < length types.now.terms }
    ensures { Gives (λ v. v) result (spec.held_value (type_of types.now ty.0) cell.now) }
{
    match cell {
        Cell::Unset => Err(MemFault::Stop(Reason::Unset)),
        Cell::Number(n) => Ok(number_value(alloc, types, ty, *n)?),
        Cell::Null => Ok(Value::one(alloc, Cell::Null)?),
        Cell::Pointer { .. } | Cell::Function(_) => {
            if is_pointer(types, ty) {
                let cell = cell.copy(alloc)?;
                Ok(Value::one(alloc, cell)?)
            } else {
                Err(MemFault::Stop(Reason::Mismatch))
            }
        }
    }
}

// The first cell of an argument, as a value of a type.
fn first_value(
    alloc: Global,
    types: &TypeTable,
    ty: TypeId,
    inst: &Instance,
    k: u64,
) -> Result<Value, MemFault>
    requires { ty.0 < length types.now.terms }
    ensures { Gives (λ v. v) result
        (spec.argument_value (type_of types.now ty.0) (under (Index k) inst.now.cells) true) }
{
    match under(inst.cells.as_slice(), 0, PathStep::Index(k)) {
        [] => Err(MemFault::Stop(Reason::Unset)),
        [entry, ..] => held_value(alloc, types, ty, &entry.1),
    }
}

// The k-th argument of an instance of arguments, as a value of a type.
fn argument_at(
    running: &Running<'_>,
    frames: &Frames,
    i: u32,
    k: u64,
    ty: TypeId,
    inst: &Instance,
) -> Result<Value, MemFault>
    requires running { IsRunning running.now }
    requires ty { ty.0 < length running.now.trees.types.now.terms }
    ensures within { IfOk result (λ _. k + 1 < 2 ^ 64) }
    ensures value { Gives (λ v. v) result
        (spec.argument_at (seen running.now) frames.now i k (type_of running.now.trees.types.now ty.0) inst.now) }
{
    if inst.bytes <= k {
        return Err(MemFault::Stop(Reason::OutOfRange));
    }
    let node = argument_node(running, frames, i, k, inst.key);
    if is_argument(&running.trees, ty, node) {
        first_value(running.alloc, running.trees.types, ty, inst, k)
    } else {
        Err(MemFault::Stop(Reason::Mismatch))
    }
}

// A list from the k-th argument on.
fn list_from(alloc: Global, instance: u32, k: u64) -> Result<Value, OutOfMemory>
    ensures { IfOk result (λ list. list ≡ spec.list_from instance k) }
{
    let steps = Vec::from_slice(alloc, &[PathStep::Index(k)])?;
    Value::one(
        alloc,
        Cell::Pointer {
            instance,
            path: Listing::of(steps),
            past: false,
        },
    )
}

// The index to which a list points, and its instance.
fn index_of(list: &Cell) -> Result<(u32, u64), Reason>
    ensures { spec.IsIndexOf list.now result }
{
    match list {
        Cell::Null => Err(Reason::NullUse),
        Cell::Pointer {
            instance,
            path,
            past,
        } => match path.as_slice() {
            [PathStep::Index(k)] => {
                if *past {
                    Err(Reason::Mismatch)
                } else {
                    Ok((*instance, *k))
                }
            }
            _ => Err(Reason::Mismatch),
        },
        Cell::Unset | Cell::Number(_) | Cell::Function(_) => Err(Reason::Mismatch),
    }
}

// What a list gives as a value of a type, and the list behind it.
fn taken_by(
    running: &Running<'_>,
    memory: &Memory,
    frames: &Frames,
    place: Cell,
    ty: TypeId,
    list: &Cell,
) -> Result<Taken, MemFault>
    requires running { IsRunning running.now }
    requires ty { ty.0 < length running.now.trees.types.now.terms }
    ensures { Gives (λ next. next) result
        (spec.taken_by (seen running.now) memory.now frames.now place (type_of running.now.trees.types.now ty.0) list.now) }
{
    let (i, k) = index_of(list)?;
    let Some(inst) = memory.instances().get(i as usize) else {
        return Err(MemFault::Stop(Reason::Mismatch));
    };
    if !inst.live {
        return Err(MemFault::Stop(Reason::DeadUse));
    }
    let value = argument_at(running, frames, i, k, ty, inst)?;
    let list = list_from(running.alloc, i, k + 1)?;
    Ok(Taken { place, list, value })
}

// What the list at a place gives.
fn take_next(
    running: &Running<'_>,
    memory: &Memory,
    frames: &Frames,
    place: Cell,
    from: TypeId,
    ty: TypeId,
) -> Result<Taken, MemFault>
    requires running { IsRunning running.now }
    requires memory { AreKnown (length running.now.trees.types.now.terms) memory.now }
    requires from { from.0 < length running.now.trees.types.now.terms }
    requires ty { ty.0 < length running.now.trees.types.now.terms }
    ensures { Gives (λ next. next) result
        (spec.taken (seen running.now) memory.now frames.now place (type_of running.now.trees.types.now from.0)
        (type_of running.now.trees.types.now ty.0)) }
{
    let list = memory.read(running.trees.types, &place, from)?;
    let list = scalar_of(running.alloc, &list)?;
    taken_by(running, memory, frames, place, ty, &list)
}

// The cell of the operand of the node on top.
fn operand(alloc: Global, frames: &Frames, p: u32) -> Result<Cell, OutOfMemory>
    ensures { (f : Frame) (rest : List Frame) → frames.now ≡ f ∷ rest →
        IfOk result (λ cell. cell ≡ values.cell_in (top_values f.items) p) }
{
    match frames.top() {
        Some(frame) => cell_in(alloc, frame.items.values(), p),
        None => Ok(Cell::Unset),
    }
}

// The place has the list behind it, and the value of the node goes to the item below.
fn put_back(
    running: &Running<'_>,
    state: &mut State,
    n: u32,
    from: TypeId,
    next: Taken,
) -> Result<Notes, MemFault>
    requires running { IsRunning running.now }
    requires memory { AreKnown (length running.now.trees.types.now.terms) state.old.memory }
    requires frames { 0 < length state.old.frames }
    requires from { from.0 < length running.now.trees.types.now.terms }
    ensures row { (f : Frame) (rest : List Frame) → state.old.frames ≡ f ∷ rest →
        Gives (λ notes. record state.new { notes = notes }) result
        (spec.settled_by state.old f rest n
        (spec.put_back running.now.trees.types.now state.old.memory (type_of running.now.trees.types.now from.0) next)) }
    ensures err { OnErr result (state.new ≡ state.old) }
{
    let alloc = running.alloc;
    let Taken { place, list, value } = next;
    let stores = stores_at(alloc, &place, &list.cells)?;
    open(alloc, &mut state.frames, n)?;
    match state.memory.write(running.trees.types, &place, from, &list) {
        Ok(()) => {
            fill(alloc, &mut state.frames, value);
            Ok(Notes::of(stores))
        }
        Err(fault) => {
            shut(alloc, &mut state.frames);
            Err(fault)
        }
    }
}

// The next one of the list at node p, as a value of a type.
fn next_over(
    running: &Running<'_>,
    state: &mut State,
    n: u32,
    p: u32,
    ty: TypeId,
) -> Result<Notes, MemFault>
    requires running { IsRunning running.now }
    requires memory { AreKnown (length running.now.trees.types.now.terms) state.old.memory }
    requires frames { 0 < length state.old.frames }
    requires place { p < length running.now.trees.nodes.now }
    requires ty { ty.0 < length running.now.trees.types.now.terms }
    ensures row { (f : Frame) (rest : List Frame) → state.old.frames ≡ f ∷ rest →
        Gives (λ notes. record state.new { notes = notes }) result
        (spec.settled_by state.old f rest n (spec.taken_over (seen running.now) state.old.memory (f ∷ rest)
        (type_of running.now.trees.types.now ty.0) (p ∷ []) (top_values f.items))) }
    ensures err { OnErr result (state.new ≡ state.old) }
{
    let place = operand(running.alloc, &state.frames, p)?;
    let from = running.trees.nodes[p as usize].ty;
    match take_next(running, &state.memory, &state.frames, place, from, ty) {
        Ok(next) => put_back(running, state, n, from, next),
        Err(fault) => Err(fault),
    }
}

/// NextArg, whose operand is there, the top item of the top frame. At `Err` nothing has changed.
#[tactic(auto, unfolding(crate::specs::Lists::next_row))]
pub fn next_row(running: &Running<'_>, state: &mut State, n: u32) -> Result<Notes, MemFault>
    requires running { IsRunning running.now }
    requires memory { AreKnown (length running.now.trees.types.now.terms) state.old.memory }
    requires frames { 0 < length state.old.frames }
    ensures row { (f : Frame) (rest : List Frame) → state.old.frames ≡ f ∷ rest →
        Gives (λ notes. record state.new { notes = notes }) result
        (spec.next_row (seen running.now) state.old f rest n (top_values f.items)) }
    ensures err { OnErr result (state.new ≡ state.old) }
{
    let Some(node) = running.trees.nodes.get(n as usize) else {
        return Err(MemFault::Stop(Reason::Mismatch));
    };
    let [p] = node.children.as_slice() else {
        return Err(MemFault::Stop(Reason::Mismatch));
    };
    next_over(running, state, n, *p, node.ty)
}

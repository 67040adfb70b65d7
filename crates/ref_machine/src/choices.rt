// Which steps choose.

ghost use Rattle.std.specs.Prelude.{◌≡◌, ◌<◌, ◌&&◌, Some, length, slice_get};
ghost use Rattle.c_types.specs.Table.{type_of};
ghost use Rattle.core_tree.specs.Seen.{core_of};
ghost use Rattle.core_tree.specs.Range.{InRange};
ghost use Rattle.core_tree.specs.Typed.{type_at};
ghost use Rattle.ref_statements.specs.Nodes.{picks};
ghost use Rattle.ref_frames.specs.Made.{IsRunning, seen};
ghost use Rattle.ref_start.specs.Begin.{main_of};
ghost use Rattle.ref_machine.specs.Step.{library_chooses, is_pointer, is_measure, measures, node_chooses, item_chooses};
ghost use Rattle.ref_machine.specs.Step.{main_chooses, start_chooses, outside_chooses};

use c_types::table::TypeTable;
use c_types::term::{Term, TypeId};
use core_tree::trees::Trees;
use core_tree::{Node, NodeKind};
use ref_frames::running::Running;
use ref_start::begin::main_of;
use ref_state::items::{Item, Items};
use ref_statements::forms::{Form, form_of};

// Whether a library function takes a word in each of its steps.
#[tactic(auto, unfolding(crate::specs::Step::library_chooses))]
fn library_chooses(k: u32) -> bool
    ensures { result ≡ library_chooses k }
{
    k <= 2
        || (10 <= k && k <= 16)
        || (20 <= k && k <= 22)
        || (27 <= k && k <= 42)
        || k == 51
        || k == 53
}

// Whether a type is a pointer.
fn is_pointer(types: &TypeTable, id: TypeId) -> bool
    requires { id.0 < length types.now.terms }
    ensures { result ≡ is_pointer (type_of types.now id.0) }
{
    match types.term(id) {
        Term::Pointer(_) => true,
        Term::Void | Term::Bool | Term::Floating | Term::VaList | Term::Integer { .. } => false,
        Term::Array { .. } | Term::Function { .. } | Term::Structure(_) | Term::Union(_) => false,
    }
}

// Whether a pointer that is converted to a type becomes a number that the word gives.
fn is_measure(types: &TypeTable, id: TypeId) -> bool
    requires { id.0 < length types.now.terms }
    ensures { result ≡ is_measure (type_of types.now id.0) }
{
    match types.term(id) {
        Term::Integer { .. } => true,
        Term::Void | Term::Bool | Term::Floating | Term::VaList | Term::Pointer(_) => false,
        Term::Array { .. } | Term::Function { .. } | Term::Structure(_) | Term::Union(_) => false,
    }
}

// Whether a pointer, the value of a node, becomes a number in a type.
fn measured(trees: &Trees<'_>, v: u32, ty: TypeId) -> bool
    requires range { InRange (core_of trees.now) }
    requires value { v < length trees.now.nodes.now }
    requires known { ty.0 < length trees.now.types.now.terms }
    ensures { result ≡ (is_pointer (type_at (core_of trees.now) v) && is_measure (type_of trees.now.types.now ty.0)) }
{
    let from = trees.nodes[v as usize].ty;
    is_pointer(trees.types, from) && is_measure(trees.types, ty)
}

// Whether a node converts a pointer to a number.
fn measures(trees: &Trees<'_>, n: u32, node: &Node) -> bool
    requires range { InRange (core_of trees.now) }
    requires node { slice_get trees.now.nodes.now n ≡ Some node.now }
    ensures { result ≡ measures (core_of trees.now) (type_of trees.now.types.now node.now.ty.0) node.now.kind node.now.children }
{
    match (&node.kind, node.children.as_slice()) {
        (NodeKind::Convert, [v]) => measured(trees, *v, node.ty),
        _ => false,
    }
}

// Whether the word picks an operand of a node.
fn picks(form: Form) -> bool
    ensures { result ≡ picks form }
{
    match form {
        Form::Value => true,
        _ => false,
    }
}

// Whether the step of a node that waits for these operands chooses.
fn node_chooses(trees: &Trees<'_>, n: u32, operands: &[u32]) -> bool
    requires { InRange (core_of trees.now) }
    ensures { result ≡ node_chooses (core_of trees.now) (slice_get trees.now.nodes.now n) operands.now }
{
    let Some(node) = trees.nodes.get(n as usize) else {
        return false;
    };
    match operands {
        [] => measures(trees, n, node),
        [_] => false,
        [_, _, ..] => picks(form_of(&node.kind)),
    }
}

/// Whether the step of a frame's top item chooses.
pub fn item_chooses(trees: &Trees<'_>, items: &Items) -> bool
    requires { InRange (core_of trees.now) }
    ensures { result ≡ item_chooses (core_of trees.now) items.now }
{
    match items.top() {
        Some(Item::Wait { node, left, .. }) => node_chooses(trees, *node, left.as_slice()),
        Some(Item::Library { function, .. }) => library_chooses(*function),
        Some(Item::Do(_) | Item::Result(_)) | None => false,
    }
}

// Whether main takes arguments.
fn main_chooses(running: &Running<'_>) -> bool
    requires { IsRunning running.now }
    ensures { result ≡ main_chooses (seen running.now) (main_of (core_of running.now.trees)) }
{
    let Some(main) = main_of(running.trees.entities) else {
        return false;
    };
    match running.parameters[main as usize].as_slice() {
        [] => false,
        [_, ..] => true,
    }
}

// Whether what is outside chooses: which entry it calls, or what it hands to main.
fn start_chooses(running: &Running<'_>) -> bool
    requires { IsRunning running.now }
    ensures { result ≡ start_chooses (seen running.now) running.now.entries.now }
{
    match running.entries {
        [] => main_chooses(running),
        [_, ..] => true,
    }
}

/// Whether the step of a program without a frame chooses: with entries each one up to the program's end, without them the
/// first one, where main has parameters.
pub fn outside_chooses(running: &Running<'_>, status: Option<i32>) -> bool
    requires { IsRunning running.now }
    ensures { result ≡ outside_chooses (seen running.now) status }
{
    match status {
        Some(_) => false,
        None => start_chooses(running),
    }
}

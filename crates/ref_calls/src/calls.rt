// Which function a call names or reaches (C11 6.5.2.2).

ghost use Rattle.std.specs.Prelude.{◌≡◌, ◌<◌, All, IfSome, length, option_and_then};
ghost use Rattle.core_tree.specs.Range.{InRange};
ghost use Rattle.core_tree.specs.Seen.{core_of};
ghost use Rattle.row_numbers.specs.Functions.{key_id};
ghost use Rattle.call_sites.specs.Calls.{name_at, name_of, decayed_at, under_decay, head_of};
ghost use Rattle.ref_calls.specs.Calls.{callee_of, fits};

use crate::signatures::{called, fits};
use c_types::key::ObjectKey;
use c_types::term::TypeId;
use core_tree::trees::Trees;
use core_tree::{Node, NodeKind};
use ref_cells::cells::{Cell, Reason};
use row_numbers::objects::library_id;

/// The declared type of a function, or of another entity; None exactly where there is none.
pub fn function_type(trees: &Trees<'_>, key: ObjectKey) -> Option<TypeId>
    requires { InRange (core_of trees.now) }
    ensures value { result ≡ key_id (core_of trees.now) key }
    ensures known { IfSome result (λ id. id.0 < length trees.now.types.now.terms) }
{
    match key {
        ObjectKey::Function(k) => library_id(k, trees.entities),
        ObjectKey::Entity(e) => match trees.entities.get(e as usize) {
            Some(entity) => Some(entity.ty),
            None => None,
        },
        ObjectKey::Text(_) | ObjectKey::Call(_) | ObjectKey::Library(_) => None,
        ObjectKey::Star(_) | ObjectKey::Varargs(_) | ObjectKey::Outside => None,
    }
}

// The function that a node names.
fn name_at(nodes: &[Node], n: u32) -> Option<u32>
    ensures { result ≡ name_at nodes.now n }
{
    match nodes.get(n as usize) {
        Some(node) => name_of(&node.kind),
        None => None,
    }
}

// The function that a kind names.
fn name_of(kind: &NodeKind) -> Option<u32>
    ensures { result ≡ name_of kind.now }
{
    match kind {
        NodeKind::FunctionName(e) => Some(*e),
        _ => None,
    }
}

// The first child, 0 where there is none.
fn head_of(children: &[u32]) -> u32
    ensures { result ≡ head_of children.now }
{
    match children {
        [callee, ..] => *callee,
        [] => 0,
    }
}

// What a node that is a Decay stands over.
fn decayed_at(nodes: &[Node], n: u32) -> Option<u32>
    ensures { result ≡ decayed_at nodes.now n }
{
    match nodes.get(n as usize) {
        Some(node) => under_decay(&node.kind, node.children.as_slice()),
        None => None,
    }
}

// What a Decay with these children stands over.
fn under_decay(kind: &NodeKind, children: &[u32]) -> Option<u32>
    ensures { result ≡ under_decay kind.now children.now }
{
    match (kind, children) {
        (NodeKind::Decay, [name]) => Some(*name),
        _ => None,
    }
}

/// The function that a call with these children names, where its callee is a function's name.
pub fn named_callee(nodes: &[Node], children: &[u32]) -> Option<u32>
    ensures { result ≡ option_and_then (name_at nodes.now) (decayed_at nodes.now (head_of children.now)) }
{
    match decayed_at(nodes, head_of(children)) {
        Some(name) => name_at(nodes, name),
        None => None,
    }
}

// Whether a function is called by its own type.
fn is_right(trees: &Trees<'_>, key: ObjectKey, callee: u32, arguments: &[u32]) -> bool
    requires range { InRange (core_of trees.now) }
    requires callee { callee < length trees.now.nodes.now }
    requires arguments { All (λ v. v < length trees.now.nodes.now) arguments.now }
    ensures { result ≡ fits (core_of trees.now) key callee arguments.now }
{
    match function_type(trees, key) {
        Some(ty) => match called(trees.types, ty) {
            Some(of) => fits(trees, of, trees.nodes[callee as usize].ty, arguments),
            None => false,
        },
        None => false,
    }
}

/// The function that a callee is: of the type of the call, with arguments of these nodes.
pub fn callee_of(
    trees: &Trees<'_>,
    callee: u32,
    arguments: &[u32],
    cell: &Cell,
) -> Result<ObjectKey, Reason>
    requires range { InRange (core_of trees.now) }
    requires callee { callee < length trees.now.nodes.now }
    requires arguments { All (λ v. v < length trees.now.nodes.now) arguments.now }
    ensures { result ≡ callee_of (core_of trees.now) callee arguments.now cell.now }
{
    match cell {
        Cell::Null => Err(Reason::NullUse),
        Cell::Unset => Err(Reason::Unset),
        Cell::Function(key) => {
            if is_right(trees, *key, callee, arguments) {
                Ok(*key)
            } else {
                Err(Reason::BadCall)
            }
        }
        Cell::Number(_) | Cell::Pointer { .. } => Err(Reason::BadCall),
    }
}

// Whether the values that nodes have are in the rows of their nodes.

ghost use Rattle.std.specs.Prelude.{◌≡◌, ◌↔◌, ◌+◌, ◌<◌, ◌≤◌, ◌^◌, IsTrue, length, slice_get};
ghost use Rattle.core_tree.specs.Seen.{core_of};
ghost use Rattle.core_tree.specs.Typed.{sort_at, type_at};
ghost use Rattle.obj_space.specs.View.{view_of};
ghost use Rattle.row_numbers.specs.Setting.{own_width, width, widths, calls_further, trail, lead_in, start_at, row};
ghost use Rattle.ref_cells.specs.Places.{AreKnown};
ghost use Rattle.row_covers.specs.Scene.{IsScene, sets_over};
ghost use Rattle.row_covers.specs.Values.{HeldBy, RowHas, HasBy};

use crate::cells::{NodeRows, are_covered, is_covered};
use crate::scene::Scene;
use c_types::table::TypeTable;
use core_tree::kinds::{is_place_kind, is_value_kind};
use core_tree::{Node, NodeKind};
use ref_cells::cells::{Cell, Path, Value};
use ref_cells::instance::Instance;
use ref_cells::wholes::Whole;
use row_numbers::kept::kept_count;
use row_numbers::numbering::{calls_further, lead};

// How many rows of its own a node has.
fn own_width(types: &TypeTable, node: &Node) -> u32
    requires { node.now.ty.0 < length types.now.terms }
    ensures width { result ≡ own_width types.now node.now }
    ensures within { result ≤ 2 ^ 24 }
{
    if is_place_kind(&node.kind) {
        1
    } else if is_value_kind(&node.kind) {
        kept_count(types, node.ty)
    } else {
        0
    }
}

// Whether a node is a pointer to a function that takes arguments past its parameters.
fn calls_at(scene: &Scene<'_>, n: u32) -> bool
    requires { IsScene scene.now }
    ensures { result ≡ calls_further (type_at (core_of scene.now.trees) n) }
{
    match scene.trees.nodes.get(n as usize) {
        Some(node) => calls_further(scene.trees.types, node.ty),
        None => false,
    }
}

// How many rows a node has behind its own.
fn trail(scene: &Scene<'_>, node: &Node) -> u32
    requires { IsScene scene.now }
    ensures value { result ≡ trail (core_of scene.now.trees) node.now.kind node.now.children }
    ensures within { result ≤ 1 }
{
    match &node.kind {
        NodeKind::CallNode => match node.children.as_slice() {
            [c, ..] => { if calls_at(scene, *c) { 1 } else { 0 } }
            [] => 0,
        },
        _ => 0,
    }
}

// How many rows a node has.
fn width(scene: &Scene<'_>, node: &Node) -> u32
    requires scene { IsScene scene.now }
    requires ty { node.now.ty.0 < length scene.now.trees.types.now.terms }
    ensures width { result ≡ width (core_of scene.now.trees) node.now }
    ensures within { result ≤ 2 ^ 24 + 2 }
{
    lead(&node.kind) + own_width(scene.trees.types, node) + trail(scene, node)
}

/// Where the rows of a node begin: one for each row of the nodes before.
pub fn start_row(scene: &Scene<'_>, n: u32) -> u64
    requires scene { IsScene scene.now }
    requires node { n ≤ length scene.now.trees.nodes.now }
    ensures value { result ≡ start_at (length scene.now.space.now) (widths (core_of scene.now.trees)) n }
    ensures small { result < 2 ^ 57 }
{
    let mut row = u64::from(scene.space.count());
    for m in 0..n {
        row += u64::from(width(scene, &scene.trees.nodes[m as usize]));
    }
    row
}

// How many rows a node has before its own.
fn lead_at(scene: &Scene<'_>, n: u32) -> u32
    ensures value { result ≡ lead_in (slice_get (core_of scene.now.trees).nodes n) }
    ensures within { result ≤ 1 }
{
    match scene.trees.nodes.get(n as usize) {
        Some(node) => lead(&node.kind),
        None => 0,
    }
}

/// The row of a place or a pointer, and the first row of any other value.
#[tactic(auto, unfolding(row_numbers::specs::Setting::row))]
pub fn node_row(scene: &Scene<'_>, n: u32) -> u64
    requires scene { IsScene scene.now }
    requires node { n ≤ length scene.now.trees.nodes.now }
    ensures value { result ≡ row (core_of scene.now.trees) (view_of scene.now.space.now) n }
    ensures small { result ≤ 2 ^ 57 }
{
    start_row(scene, n) + u64::from(lead_at(scene, n))
}

/// Whether what each cell points to is in the set of a row; without a row they point to nothing.
pub fn has_row(
    scene: &Scene<'_>,
    memory: &[Instance],
    row: Option<u64>,
    cells: &[(Path, Cell)],
) -> bool
    requires scene { IsScene scene.now }
    requires known { AreKnown (length scene.now.trees.types.now.terms) memory.now }
    ensures { IsTrue result ↔ RowHas (sets_over scene.now) memory.now row cells.now }
{
    cells
        .iter()
        .all(|entry| is_covered(scene, memory, row, &entry.1))
}

/// Whether a value is in the rows of a node of the program.
pub fn is_held_covered(scene: &Scene<'_>, memory: &[Instance], n: u32, value: &Value) -> bool
    requires scene { IsScene scene.now }
    requires known { AreKnown (length scene.now.trees.types.now.terms) memory.now }
    requires node { n < length scene.now.trees.nodes.now }
    ensures { IsTrue result ↔ HeldBy (sets_over scene.now) (core_of scene.now.trees) (view_of scene.now.space.now) memory.now n value.now }
{
    let ty = scene.trees.nodes[n as usize].ty;
    are_covered(
        scene,
        memory,
        NodeRows::Value(node_row(scene, n), ty),
        Some(Whole::One(ty)),
        value.cells.as_slice(),
    )
}

/// Whether what a node has is covered at it: a place is in its row, a value in its rows, and what is neither points to nothing.
pub fn is_node_covered(scene: &Scene<'_>, memory: &[Instance], n: u32, value: &Value) -> bool
    requires scene { IsScene scene.now }
    requires known { AreKnown (length scene.now.trees.types.now.terms) memory.now }
    ensures { let u = core_of scene.now.trees in IsTrue result
        ↔ HasBy (sets_over scene.now) u (view_of scene.now.space.now) memory.now (sort_at u n) n value.now }
{
    let Some(node) = scene.trees.nodes.get(n as usize) else {
        return has_row(scene, memory, None, value.cells.as_slice());
    };
    if is_place_kind(&node.kind) {
        has_row(
            scene,
            memory,
            Some(node_row(scene, n)),
            value.cells.as_slice(),
        )
    } else if is_value_kind(&node.kind) {
        is_held_covered(scene, memory, n, value)
    } else {
        has_row(scene, memory, None, value.cells.as_slice())
    }
}

// Which functions calls reach, by their objects and nodes.

ghost use Rattle.std.specs.Prelude.{◌≡◌, ◌↔◌, ◌≤◌, IsTrue, Some, length};
ghost use Rattle.c_types.specs.declared.key.ObjectKey.{ObjectKey as Key};
ghost use Rattle.sol_model.specs.Families.{members};
ghost use Rattle.sol_model.specs.Systems.{Fits};
ghost use Rattle.obj_space.specs.View.{first_from};
ghost use Rattle.row_covers.specs.Targets.{is_call_node, call_unit, call_count, call_number, function_in, TargetBy, GraphBy, BackBy};

use crate::edges::{is_back_of, is_edge, is_target};
use crate::scene::Scene;
use c_types::key::ObjectKey;
use core_tree::{Node, NodeKind};

// Whether a node is a call.
#[tactic(auto, unfolding(crate::specs::Targets::is_call_node))]
fn is_call(node: &Node) -> bool
    ensures { result ≡ is_call_node node.now }
{
    matches!(node.kind, NodeKind::CallNode)
}

// One for a call.
fn call_unit(node: &Node) -> usize
    ensures unit { result ≡ call_unit node.now }
    ensures within { result ≤ 1 }
{
    if is_call(node) { 1 } else { 0 }
}

// How many of the first so many nodes are calls.
fn calls_before(nodes: &[Node], n: usize) -> usize
    requires { n ≤ length nodes.now }
    ensures { result ≡ call_count nodes.now n }
{
    let mut count = 0;
    for m in 0..n {
        count += call_unit(&nodes[m]);
    }
    count
}

/// The number of the call at a node; none where it is no call.
pub fn call_at(scene: &Scene<'_>, n: u32) -> Option<usize>
    ensures { result ≡ call_number scene.now.trees.nodes.now n }
{
    match scene.trees.nodes.get(n as usize) {
        Some(node) => {
            if is_call(node) {
                Some(calls_before(scene.trees.nodes, n as usize))
            } else {
                None
            }
        }
        None => None,
    }
}

/// The number of a function; none where an object is no function.
pub fn function_at(scene: &Scene<'_>, key: ObjectKey) -> Option<u32>
    ensures { result ≡ function_in scene.now.system.now (first_from 0 scene.now.space.now key) }
{
    let first = scene.space.first(key)?;
    match scene.system.locations.as_slice().get(first as usize) {
        Some(fact) => fact.function,
        None => None,
    }
}

/// Whether a function is a target of the call at a node.
pub fn is_target_at(scene: &Scene<'_>, n: u32, key: ObjectKey) -> bool
    requires { Fits scene.now.system.now scene.now.rows.now }
    ensures { let system = scene.now.system.now in IsTrue result ↔
        TargetBy system (members scene.now.rows.now) (call_number scene.now.trees.nodes.now n)
        (function_in system (first_from 0 scene.now.space.now key)) }
{
    let Some(call) = call_at(scene, n) else {
        return false;
    };
    match function_at(scene, key) {
        Some(function) => is_target(scene.system, scene.rows, call, function),
        None => false,
    }
}

/// Whether a function stands in the call graph under a function of the library.
pub fn is_in_graph(scene: &Scene<'_>, library: u32, key: ObjectKey) -> bool
    requires { Fits scene.now.system.now scene.now.rows.now }
    ensures { let system = scene.now.system.now in IsTrue result ↔
        GraphBy system (members scene.now.rows.now)
        (function_in system (first_from 0 scene.now.space.now (Key.Function library)))
        (function_in system (first_from 0 scene.now.space.now key)) }
{
    let Some(caller) = function_at(scene, ObjectKey::Function(library)) else {
        return false;
    };
    match function_at(scene, key) {
        Some(callee) => is_edge(scene.system, scene.rows, caller, callee),
        None => false,
    }
}

// Whether a target of the call of that number calls the function of that number back.
fn is_number_back(scene: &Scene<'_>, call: usize, back: u32) -> bool
    requires { Fits scene.now.system.now scene.now.rows.now }
    ensures { IsTrue result ↔ BackBy scene.now.system.now (members scene.now.rows.now) (Some call) (Some back) }
{
    let Some(site) = scene.system.calls.as_slice().get(call) else {
        return false;
    };
    match scene.system.functions.as_slice().get(back as usize) {
        Some(function) => is_back_of(scene.system, scene.rows, site, function),
        None => false,
    }
}

/// Whether a target of the call at a node calls a function back.
pub fn is_called_back_at(scene: &Scene<'_>, n: u32, key: ObjectKey) -> bool
    requires { Fits scene.now.system.now scene.now.rows.now }
    ensures { let system = scene.now.system.now in IsTrue result ↔
        BackBy system (members scene.now.rows.now) (call_number scene.now.trees.nodes.now n)
        (function_in system (first_from 0 scene.now.space.now key)) }
{
    let Some(call) = call_at(scene, n) else {
        return false;
    };
    match function_at(scene, key) {
        Some(back) => is_number_back(scene, call, back),
        None => false,
    }
}

// The places of bodies among the nodes of trees.
#![tactic(auto)]

ghost use Rattle.std.specs.Prelude.{◌≡◌, length, None, Some, get_or, IfOk, OnOk, IsOkUnless, IsTrue, ◌↔◌, MatchResult, MatchOption};
ghost use Rattle.core_tree.specs.declared.node.Storage.TheVariants.{FunctionBody};
ghost use Rattle.core_nodes.specs.declared.fault.CheckFault.TheVariants.{OutOfMemory};
ghost use Rattle.unit_finish.specs.planted_nodes.Grown.{IsWhole};
ghost use Rattle.unit_finish.specs.planted_nodes.Placed.{Places, ArePlaced};

use crate::planted_nodes::growing::{Plan, grow};
use crate::unit_parts::Declared;
use core_nodes::CheckFault;
use core_tree::node::{Node, Storage};
use std::alloc::Global;

// Where a node has been met as a child, for what isn't a function.
fn met_as(met: &[Option<u32>], storage: Storage, body: u32) -> Option<u32>
    ensures { MatchOption result ((storage ≡ FunctionBody → ⊥) → get_or met.now body None ≡ None)
        (λ at. (get_or met.now body None ≡ Some at) × (storage ≡ FunctionBody → ⊥)) }
{
    if matches!(storage, Storage::FunctionBody) {
        return None;
    }
    match met.get(body as usize) {
        Some(at) => *at,
        None => None,
    }
}

// The place of a body: where it has been met as a child, or at the root of a tree that is added; a function's always so.
fn place(
    nodes: &[Node],
    plan: &mut Plan,
    storage: Storage,
    body: Option<u32>,
) -> Result<Option<u32>, CheckFault>
    requires { IsWhole nodes.now plan.old.origins.items plan.old.starts.items plan.old.met.items }
    ensures { MatchResult result (λ at. Places nodes.now plan.old.origins.items plan.old.starts.items
        plan.new.origins.items plan.new.starts.items plan.new.met.items storage body at) (λ fault. fault ≡ OutOfMemory) }
{
    let Some(body) = body else {
        return Ok(None);
    };
    if let Some(at) = met_as(plan.met.as_slice(), storage, body) {
        return Ok(Some(at));
    }
    let at = grow(nodes, plan, body)?;
    Ok(Some(at))
}

/// The places of the bodies of what is declared, and the nodes of the trees under these.
pub(in crate::planted_nodes) fn places(
    alloc: Global,
    nodes: &[Node],
    list: &[Declared],
    plan: &mut Plan,
) -> Result<Vec<Option<u32>>, CheckFault>
    requires none { length plan.old.origins.items ≡ 0 }
    requires whole { IsWhole nodes.now plan.old.origins.items plan.old.starts.items plan.old.met.items }
    ensures whole { OnOk result (IsWhole nodes.now plan.new.origins.items plan.new.starts.items plan.new.met.items) }
    ensures placed { MatchResult result (λ bodies. ArePlaced nodes.now list.now (length list.now) bodies.items
        plan.new.origins.items plan.new.starts.items) (λ fault. fault ≡ OutOfMemory) }
{
    let mut bodies = Vec::with_capacity(alloc, list.len())?;
    for item in list {
        let at = place(nodes, plan, item.storage, item.body)?;
        bodies.push(at)?;
    }
    Ok(bodies)
}

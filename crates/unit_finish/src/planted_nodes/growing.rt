// The nodes of trees, each level by level.
#![tactic(auto)]

ghost use Rattle.std.specs.Prelude.{◌≡◌, ◌+◌, ◌<◌, ◌^◌, ◌++◌, [], ◌∷◌, length, get_or, slice_set, Some, OnOk, IsOkUnless, MatchResult, ℕ};
ghost use Rattle.core_nodes.specs.declared.fault.CheckFault.TheVariants.{OutOfMemory};
ghost use Rattle.unit_finish.specs.planted_nodes.Grown as spec;
ghost use Rattle.unit_finish.specs.planted_nodes.Grown.{under_at, Notes, IsCovered, IsWhole, GrowsFrom};

use core_nodes::CheckFault;
use core_tree::node::Node;

/// Nodes of trees: the number of each one, the position from which its children stand, and of each node a position at which it stands as
/// a child.
#[derive(Drop)]
pub(in crate::planted_nodes) struct Plan {
    pub(in crate::planted_nodes) origins: Vec<u32>,
    pub(in crate::planted_nodes) starts: Vec<u32>,
    pub(in crate::planted_nodes) met: Vec<Option<u32>>,
}

// The children of a node; one that isn't there has none.
fn children_of(nodes: &[Node], node: u32) -> &[u32]
    ensures { result.now ≡ spec.children_of nodes.now node }
{
    match nodes.get(node as usize) {
        Some(node) => node.children.as_slice(),
        None => &[],
    }
}

// Notes the position of a child.
fn note(met: &mut Vec<Option<u32>>, child: u32, at: u32)
    ensures { Notes at (child ∷ []) 1 met.old.items met.new.items }
{
    if (child as usize) < met.len() {
        met[child as usize] = Some(at);
    }
}

// Adds children at the end, and notes their positions.
fn append(
    origins: &mut Vec<u32>,
    met: &mut Vec<Option<u32>>,
    children: &[u32],
) -> Result<(), CheckFault>
    requires { length origins.old.items + length children.now < 2 ^ 32 }
    ensures origins { OnOk result (origins.new.items ≡ origins.old.items ++ children.now) }
    ensures met { OnOk result (Notes (length origins.old.items) children.now (length children.now) met.old.items met.new.items) }
    ensures memory { IsOkUnless result OutOfMemory }
{
    for child in children {
        note(met, *child, origins.len() as u32);
        origins.push(*child)?;
    }
    Ok(())
}

// Adds the children of the next position that has none yet.
fn visit(nodes: &[Node], plan: &mut Plan) -> Result<(), CheckFault>
    requires next { length plan.old.starts.items < length plan.old.origins.items }
    requires few { length plan.old.origins.items < 2 ^ 32 }
    ensures starts { OnOk result (plan.new.starts.items ≡ plan.old.starts.items ++ length plan.old.origins.items ∷ []) }
    ensures origins { OnOk result (plan.new.origins.items
        ≡ plan.old.origins.items ++ under_at nodes.now plan.old.origins.items (length plan.old.starts.items)) }
    ensures few { OnOk result (length plan.new.origins.items < 2 ^ 32) }
    ensures met { OnOk result (let children = under_at nodes.now plan.old.origins.items (length plan.old.starts.items) in
        Notes (length plan.old.origins.items) children (length children) plan.old.met.items plan.new.met.items) }
    ensures memory { IsOkUnless result OutOfMemory }
{
    let children = children_of(nodes, plan.origins[plan.starts.len()]);
    let start = plan.origins.len();
    if children.len() > u32::MAX as usize - start {
        return Err(CheckFault::OutOfMemory);
    }
    plan.starts.push(start as u32)?;
    append(&mut plan.origins, &mut plan.met, children)
}

/// Adds the nodes of the tree under a node behind the others: the position of that node.
pub(in crate::planted_nodes) fn grow(
    nodes: &[Node],
    plan: &mut Plan,
    root: u32,
) -> Result<u32, CheckFault>
    requires { IsWhole nodes.now plan.old.origins.items plan.old.starts.items plan.old.met.items }
    ensures at { MatchResult result (λ at. at ≡ length plan.old.origins.items) (λ fault. fault ≡ OutOfMemory) }
    ensures whole { OnOk result (IsWhole nodes.now plan.new.origins.items plan.new.starts.items plan.new.met.items) }
    ensures grows { OnOk result (GrowsFrom plan.old.origins.items plan.old.starts.items plan.new.origins.items plan.new.starts.items) }
    ensures root { OnOk result (get_or plan.new.origins.items (length plan.old.origins.items) 0 ≡ root) }
    ensures within { OnOk result (length plan.old.origins.items < length plan.new.origins.items) }
    ensures covered { OnOk result ((q : ℕ) → length plan.old.origins.items < q → q < length plan.new.origins.items →
        IsCovered nodes.now plan.new.origins.items plan.new.starts.items q) }
{
    let at = plan.origins.len();
    if at >= u32::MAX as usize {
        return Err(CheckFault::OutOfMemory);
    }
    plan.origins.push(root)?;
    while plan.starts.len() < plan.origins.len() {
        visit(nodes, plan)?;
    }
    Ok(at as u32)
}

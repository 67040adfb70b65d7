// Places that a pointer leads to.

ghost use Rattle.std.specs.Prelude.{◌≡◌, ℕ, ◌<◌, ◌↔◌, List, IfOk, IsTrue, All, Some, length, slice_get};
ghost use Rattle.core_tree.specs.declared.node.Node.{Node};
ghost use Rattle.stop_places.specs.Far.{IsFar, AreFar};

use core_tree::{Node, NodeKind};
use pta_base::OutOfMemory;
use std::alloc::Global;

// Whether a node is a far place, where it is known of the nodes before it.
fn is_far(node: &Node, far: &[bool]) -> bool
    requires { All (λ child. child < length far.now) node.now.children }
    ensures { (nodes : List Node) → slice_get nodes (length far.now) ≡ Some node.now → AreFar nodes (length far.now) far.now →
        IsTrue result ↔ IsFar nodes (length far.now) }
{
    match node.kind {
        NodeKind::Deref => true,
        NodeKind::Member(_) => match node.children.as_slice() {
            [p] => far[*p as usize],
            _ => false,
        },
        _ => false,
    }
}

/// Which nodes are far places: what a pointer points to, and members of far places.
pub(crate) fn far_places(alloc: Global, nodes: &[Node]) -> Result<Vec<bool>, OutOfMemory>
    requires { (n : ℕ) (node : Node) → slice_get nodes.now n ≡ Some node → All (λ child. child < n) node.children }
    ensures { IfOk result (λ far. AreFar nodes.now (length nodes.now) far.items) }
{
    let mut far = Vec::new(alloc);
    for n in 0..nodes.len() {
        let is = is_far(&nodes[n], far.as_slice());
        far.push(is)?;
    }
    Ok(far)
}

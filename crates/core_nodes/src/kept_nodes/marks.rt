// Which of the nodes from a number on stand under a node.
#![tactic(auto)]

ghost use Rattle.std.specs.Prelude.{◌≡◌, ◌+◌, ◌<◌, ◌≤◌, length, slice_get, Some, All, IfOk, IsOkUnless, ℕ};
ghost use Rattle.core_nodes.specs.declared.fault.CheckFault.TheVariants.{OutOfMemory};
ghost use Rattle.core_tree.specs.declared.node.Node.{Node as NodeSpec};
ghost use Rattle.core_nodes.specs.kept_nodes.Marked.{Marks, AreMarked, ChildrenFirst};

use crate::CheckFault;
use core_tree::node::Node;
use std::alloc::Global;

// Marks those of some nodes that have at least a number.
fn mark_children(marks: &mut Vec<bool>, from: u32, children: &[u32])
    requires { All (λ c. c < from + length marks.old.items) children.now }
    ensures { Marks from marks.old.items marks.new.items children.now (length children.now) }
{
    for child in children {
        if *child >= from {
            marks[(*child - from) as usize] = true;
        }
    }
}

/// Which of the nodes from a number on stand under a node, or are that one.
pub fn marks_under(
    alloc: Global,
    nodes: &[Node],
    from: u32,
    top: u32,
) -> Result<Vec<bool>, CheckFault>
    requires order { ChildrenFirst nodes.now }
    requires from { from ≤ top }
    requires top { top < length nodes.now }
    ensures marked { IfOk result (λ marks. AreMarked nodes.now from top marks.items) }
    ensures memory { IsOkUnless result OutOfMemory }
{
    let mut marks = vec![in alloc; false; nodes.len() - from as usize]?;
    marks[(top - from) as usize] = true;
    let mut left = marks.len();
    while left > 0 {
        left -= 1;
        if marks[left] {
            mark_children(
                &mut marks,
                from,
                nodes[from as usize + left].children.as_slice(),
            );
        }
    }
    Ok(marks)
}

// Which nodes stand under some nodes.
#![tactic(auto)]

ghost use Rattle.std.specs.Prelude.{◌≡◌, ◌<◌, length, All, IfOk, ℕ};
ghost use Rattle.core_nodes.specs.kept_nodes.Marked.{ChildrenFirst};
ghost use Rattle.unit_finish.specs.unit_parts.Marked.{Marks, AreMarked};

use core_tree::node::Node;
use std::alloc::{AllocError, Global};

// Marks some nodes.
fn mark_all(marks: &mut Vec<bool>, list: &[u32])
    requires { All (λ c. c < length marks.old.items) list.now }
    ensures { Marks marks.old.items marks.new.items list.now (length list.now) }
{
    for node in list {
        marks[*node as usize] = true;
    }
}

/// Which of the nodes are tops or stand under one, in time linear in the nodes.
pub fn marks_under(alloc: Global, nodes: &[Node], tops: &[u32]) -> Result<Vec<bool>, AllocError>
    requires order { ChildrenFirst nodes.now }
    requires tops { All (λ t. t < length nodes.now) tops.now }
    ensures { IfOk result (λ marks. AreMarked nodes.now tops.now marks.items) }
{
    let mut marks = vec![in alloc; false; nodes.len()]?;
    mark_all(&mut marks, tops);
    let mut left = marks.len();
    while left > 0 {
        left -= 1;
        if marks[left] {
            mark_all(&mut marks, nodes[left].children.as_slice());
        }
    }
    Ok(marks)
}

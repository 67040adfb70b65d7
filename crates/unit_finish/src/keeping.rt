// The nodes that stand under bodies.
#![tactic(auto)]

ghost use Rattle.std.specs.Prelude.{◌≡◌, ◌<◌, ◌^◌, length, All, IfOk, IsOkUnless};
ghost use Rattle.core_nodes.specs.declared.fault.CheckFault.TheVariants.{OutOfMemory};
ghost use Rattle.core_nodes.specs.kept_nodes.Marked.{ChildrenFirst};
ghost use Rattle.unit_finish.specs.unit_parts.Entities.{bodies_of};
ghost use Rattle.unit_finish.specs.Complete.{IsKept};

use crate::unit_parts::{
    Declared, bodies_of, kept_nodes, marks_under, numbers_of, with_moved_bodies,
};
use core_nodes::CheckFault;
use core_tree::node::Node;
use std::alloc::Global;

/// The nodes that stay, and what the names declare, with the new numbers of bodies.
#[derive(Drop)]
pub struct Kept {
    pub nodes: Vec<Node>,
    pub names: Vec<Declared>,
}

/// Keeps, of some nodes, those that are bodies of what is declared or stand under one, in order, and drops the others. It takes time and
/// memory linear in both lists. Only memory may want, or there are 2^32 nodes.
pub fn keep(alloc: Global, nodes: Vec<Node>, names: Vec<Declared>) -> Result<Kept, CheckFault>
    requires order { ChildrenFirst nodes.items }
    requires bodies { All (λ b. b < length nodes.items) (bodies_of names.items) }
    ensures kept { IfOk result (λ kept. IsKept nodes.items names.items kept) }
    ensures memory { IsOkUnless result OutOfMemory }
{
    if nodes.len() > u32::MAX as usize {
        return Err(CheckFault::OutOfMemory);
    }
    let tops = bodies_of(alloc, names.as_slice())?;
    let marks = marks_under(alloc, nodes.as_slice(), tops.as_slice())?;
    let numbers = numbers_of(alloc, marks.as_slice())?;
    let nodes = kept_nodes(alloc, numbers.as_slice(), nodes)?;
    let names = with_moved_bodies(alloc, numbers.as_slice(), names)?;
    Ok(Kept { nodes, names })
}

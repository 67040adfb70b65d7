// Nodes that are made anew.
#![tactic(auto)]

ghost use Rattle.std.specs.Prelude.{◌≡◌, IfOk, IsOkUnless};
ghost use Rattle.core_nodes.specs.declared.fault.CheckFault.TheVariants.{OutOfMemory};
ghost use Rattle.unit_finish.specs.planted_nodes.Planted.{IsPlanted};

use crate::planted_nodes::copying::{copies, with_places};
use crate::planted_nodes::growing::Plan;
use crate::planted_nodes::placing::places;
use crate::unit_parts::Declared;
use core_nodes::CheckFault;
use core_tree::node::Node;
use std::alloc::Global;

/// Nodes that are made anew, and what is declared, with the new numbers of bodies.
#[derive(Drop)]
pub struct Planted {
    pub nodes: Vec<Node>,
    pub list: Vec<Declared>,
}

/// Makes nodes anew from the trees under the bodies of what is declared, so that no node is the child of two, or of one twice: a node that
/// is shared is copied for each of its parents. A function's body is the root of a tree of its own, and so is another one's that hasn't
/// been met as a child under the bodies before it; the others are those children. The nodes under one root stand side by side, level by
/// level, and children have smaller numbers; so have the roots of later bodies, and all under them. It takes time and memory linear in both
/// lists and in the new nodes. Only memory may want, or there are 2^32 nodes.
pub fn plant(alloc: Global, nodes: Vec<Node>, list: Vec<Declared>) -> Result<Planted, CheckFault>
    ensures planted { IfOk result (λ planted. IsPlanted nodes.items list.items planted) }
    ensures memory { IsOkUnless result OutOfMemory }
{
    let mut plan = Plan {
        origins: Vec::new(alloc),
        starts: Vec::new(alloc),
        met: vec![in alloc; None; nodes.len()]?,
    };
    let bodies = places(alloc, nodes.as_slice(), list.as_slice(), &mut plan)?;
    let Plan {
        origins,
        starts,
        met,
    } = plan;
    std::mem::drop(met);
    let total = origins.len() as u32;
    let new = copies(
        alloc,
        nodes.as_slice(),
        origins.as_slice(),
        starts.as_slice(),
    )?;
    std::mem::drop(nodes);
    let list = with_places(alloc, total, list, bodies.as_slice())?;
    Ok(Planted { nodes: new, list })
}

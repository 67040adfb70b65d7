// The nodes of one tree, and no others.
#![tactic(auto)]

ghost use Rattle.std.specs.Prelude.{◌≡◌, ◌<◌, ◌≤◌, length, IfOk, IsOkUnless};
ghost use Rattle.core_nodes.specs.Standing.{core_at, IsReady};
ghost use Rattle.core_nodes.specs.declared.fault.CheckFault.TheVariants.{OutOfMemory};
ghost use Rattle.core_nodes.specs.kept_nodes.Keeps.{Keeps, AllUnder};

use crate::CheckFault;
use crate::kept_nodes::copies::copies;
use crate::kept_nodes::marks::marks_under;
use core_tree::node::Unit;
use std::alloc::Global;
use std::collections::VecDeque;

// The same where the node is one of them.
fn keep_new(alloc: Global, unit: &mut Unit, from: u32, top: u32) -> Result<u32, CheckFault>
    requires ready { IsReady unit.old }
    requires from { from ≤ top }
    requires top { top < length unit.old.nodes.items }
    ensures ready { IsReady unit.new }
    ensures keeps { Keeps from unit.old unit.new }
    ensures tree { IfOk result (λ i. core_at unit.new i ≡ core_at unit.old top) }
    ensures within { IfOk result (λ i. i < length unit.new.nodes.items) }
    ensures only { IfOk result (λ i. AllUnder unit.new from i) }
    ensures memory { IsOkUnless result OutOfMemory }
{
    let marks = marks_under(alloc, unit.nodes.as_slice(), from, top)?;
    let cut = unit.nodes.split_off(from as usize)?;
    let rest = VecDeque::from_vec(cut);
    let numbers = copies(alloc, unit, from, rest, marks.as_slice())?;
    Ok(numbers[(top - from) as usize])
}

// Drops the nodes from a number on.
fn cut_back(unit: &mut Unit, from: u32)
    requires ready { IsReady unit.old }
    requires from { from ≤ length unit.old.nodes.items }
    ensures ready { IsReady unit.new }
    ensures keeps { Keeps from unit.old unit.new }
    ensures none { length unit.new.nodes.items ≡ from }
{
    unit.nodes.truncate(from as usize);
}

/// Keeps, of the nodes from a number on, those that stand under a node, and drops the others: its number afterwards. The node stands
/// for the same tree as before, each node from the number on stands under it or is it, and all before the number is what it was,
/// also after want of memory. It takes time and memory for the nodes from the number on alone.
pub fn keep_under(alloc: Global, unit: &mut Unit, from: u32, top: u32) -> Result<u32, CheckFault>
    requires ready { IsReady unit.old }
    requires from { from ≤ length unit.old.nodes.items }
    requires top { top < length unit.old.nodes.items }
    ensures ready { IsReady unit.new }
    ensures keeps { Keeps from unit.old unit.new }
    ensures tree { IfOk result (λ i. core_at unit.new i ≡ core_at unit.old top) }
    ensures within { IfOk result (λ i. i < length unit.new.nodes.items) }
    ensures only { IfOk result (λ i. AllUnder unit.new from i) }
    ensures memory { IsOkUnless result OutOfMemory }
{
    if from <= top {
        return keep_new(alloc, unit, from, top);
    }
    cut_back(unit, from);
    Ok(top)
}

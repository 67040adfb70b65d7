//! Calls between classes of functions.
ghost use Rattle.std.specs.Prelude.{IfOk, OnOk, length};
ghost use Rattle.mod_ref.specs.Ways.{AddsPair, AreBelow, AreClassEdges};

use pta_base::OutOfMemory;
use std::alloc::Global;

/// Adds the pair of two functions, unless they are one.
fn push_apart(made: &mut Vec<(u32, u32)>, caller: u32, callee: u32) -> Result<(), OutOfMemory>
    ensures { OnOk result (AddsPair made.old.items made.new.items caller callee) }
{
    if caller != callee {
        made.push((caller, callee))?;
    }
    Ok(())
}

/// The pairs that edges make between functions that stand for their classes, in order. Those of one class make none.
pub(crate) fn class_edges(
    alloc: Global,
    edges: &[(u32, u32)],
    first: &[u32],
) -> Result<Vec<(u32, u32)>, OutOfMemory>
    requires { AreBelow (length first.now) edges.now }
    ensures { IfOk result (λ made. AreClassEdges edges.now first.now made.items) }
{
    let mut made = Vec::new(alloc);
    for i in 0..edges.len() {
        let caller = first[edges[i].0 as usize];
        let callee = first[edges[i].1 as usize];
        push_apart(&mut made, caller, callee)?;
    }
    made.sort_unstable();
    Ok(made)
}

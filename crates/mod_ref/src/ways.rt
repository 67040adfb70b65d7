//! Pairs of functions, in an order in which sets are soon whole: to the function that stands for its class from each other one of it,
//! then between classes from callees to callers, and then back to each other function.
ghost use Rattle.std.specs.Prelude.{◌≡◌, ◌<◌, ◌^◌, IfOk, OnOk, length};
ghost use Rattle.mod_ref.specs.Ways.{AddsBoth, AddsWays, AreBelow, AreClassEdges, AreKeyedBelow, AreOneSet, AreWays, IsBetween, IsMember};

use crate::class_edges::class_edges;
use crate::classes::classes;
use crate::order::heights;
use pta_base::OutOfMemory;
use std::alloc::Global;

/// Adds the pairs of a function with the one that stands for its class, first to that one and last from it, unless they are one.
fn push_both(ways: &mut Vec<(u32, u32, u32)>, one: u32, f: u32) -> Result<(), OutOfMemory>
    ensures { OnOk result (AddsBoth ways.old.items ways.new.items one f) }
{
    if one != f {
        ways.push((0, one, f))?;
        ways.push((u32::MAX, f, one))?;
    }
    Ok(())
}

/// Adds the pairs of each function with the one that stands for its class.
fn push_members(ways: &mut Vec<(u32, u32, u32)>, first: &[u32]) -> Result<(), OutOfMemory>
    requires { length first.now < 2 ^ 32 }
    ensures { OnOk result (AddsWays ways.old.items ways.new.items (IsMember first.now)) }
{
    for f in 0..first.len() {
        push_both(ways, first[f], f as u32)?;
    }
    Ok(())
}

/// Adds the pairs between classes, by the heights of the callers.
fn push_between(
    ways: &mut Vec<(u32, u32, u32)>,
    made: &[(u32, u32)],
    heights: &[u32],
) -> Result<(), OutOfMemory>
    requires { AreBelow (length heights.now) made.now }
    ensures { OnOk result (AddsWays ways.old.items ways.new.items (IsBetween made.now)) }
{
    for i in 0..made.len() {
        let (caller, callee) = made[i];
        ways.push((heights[caller as usize], caller, callee))?;
    }
    Ok(())
}

/// The pairs of functions with those that stand for their classes, and those between classes, by their keys.
fn ordered(
    alloc: Global,
    functions: u32,
    edges: &[(u32, u32)],
    first: &[u32],
    made: &[(u32, u32)],
    heights: &[u32],
) -> Result<Vec<(u32, u32, u32)>, OutOfMemory>
    requires below { AreBelow functions edges.now }
    requires sets { AreOneSet functions edges.now first.now }
    requires classes { AreClassEdges edges.now first.now made.now }
    requires heights { length heights.now ≡ functions }
    ensures ways { IfOk result (λ ways. AreWays edges.now ways.items) }
    ensures below { IfOk result (λ ways. AreKeyedBelow functions ways.items) }
{
    let mut ways = Vec::new(alloc);
    push_members(&mut ways, first)?;
    push_between(&mut ways, made, heights)?;
    ways.sort_unstable();
    Ok(ways)
}

/// The pairs for the edges of a call graph.
pub(crate) fn ways(
    alloc: Global,
    functions: u32,
    edges: &[(u32, u32)],
) -> Result<Vec<(u32, u32, u32)>, OutOfMemory>
    requires { AreBelow functions edges.now }
    ensures ways { IfOk result (λ ways. AreWays edges.now ways.items) }
    ensures below { IfOk result (λ ways. AreKeyedBelow functions ways.items) }
{
    let listed = classes(alloc, functions, edges)?;
    let first = listed.as_slice();
    let pairs = class_edges(alloc, edges, first)?;
    let made = pairs.as_slice();
    let numbers = heights(alloc, functions, made)?;
    let heights = numbers.as_slice();
    let ways = ordered(alloc, functions, edges, first, made, heights)?;
    Ok(ways)
}

//! Callers before callees (Kahn 1962), where no calls go in a ring. What is said of sets doesn't rest on the order; how soon they are
//! whole does.
ghost use Rattle.std.specs.Prelude.{◌≡◌, ◌<◌, ◌^◌, All, IfOk, OnOk, length};
ghost use Rattle.mod_ref.specs.Ways.{AreBelow};

use pta_base::OutOfMemory;
use std::alloc::Global;

/// How many edges lead to each function.
fn incoming(alloc: Global, functions: u32, edges: &[(u32, u32)]) -> Result<Vec<u32>, OutOfMemory>
    requires { AreBelow functions edges.now }
    ensures { IfOk result (λ counts. length counts.items ≡ functions) }
{
    let mut counts = vec![in alloc; 0u32; functions as usize]?;
    for i in 0..edges.len() {
        let callee = edges[i].1 as usize;
        counts[callee] = counts[callee].saturating_add(1);
    }
    Ok(counts)
}

/// Where the edges of each function begin in a list of edges in order; where it has none, at the end.
fn beginnings(
    alloc: Global,
    functions: u32,
    edges: &[(u32, u32)],
) -> Result<Vec<usize>, OutOfMemory>
    requires { AreBelow functions edges.now }
    ensures { IfOk result (λ begins. length begins.items ≡ functions) }
{
    let mut begins = vec![in alloc; edges.len(); functions as usize]?;
    for i in (0..edges.len()).rev() {
        begins[edges[i].0 as usize] = i;
    }
    Ok(begins)
}

/// The functions to which no edge leads.
fn called_by_none(alloc: Global, counts: &[u32]) -> Result<Vec<u32>, OutOfMemory>
    requires { length counts.now < 2 ^ 32 }
    ensures { IfOk result (λ list. All (λ f. f < length counts.now) list.items) }
{
    let mut list = Vec::new(alloc);
    for f in 0..counts.len() {
        if counts[f] == 0 {
            list.push(f as u32)?;
        }
    }
    Ok(list)
}

/// Takes the edges of a function off the counts, from the place where they begin, and adds those to whom no other edge leads.
fn release(
    edges: &[(u32, u32)],
    begin: usize,
    caller: u32,
    counts: &mut [u32],
    list: &mut Vec<u32>,
) -> Result<(), OutOfMemory>
    requires edges { AreBelow (length counts.old) edges.now }
    requires list { All (λ f. f < length counts.old) list.old.items }
    ensures list { All (λ f. f < length counts.old) list.new.items }
{
    for i in begin..edges.len() {
        if edges[i].0 != caller {
            return Ok(());
        }
        let callee = edges[i].1;
        counts[callee as usize] = counts[callee as usize].saturating_sub(1);
        if counts[callee as usize] == 0 {
            list.push(callee)?;
        }
    }
    Ok(())
}

/// The functions in an order in which each stands behind all that call it, for edges in order that go in no ring.
fn callers_first(
    alloc: Global,
    functions: u32,
    edges: &[(u32, u32)],
) -> Result<Vec<u32>, OutOfMemory>
    requires { AreBelow functions edges.now }
    ensures { IfOk result (λ list. All (λ f. f < functions) list.items) }
{
    let mut counts = incoming(alloc, functions, edges)?;
    let begins = beginnings(alloc, functions, edges)?;
    let mut list = called_by_none(alloc, counts.as_slice())?;
    for at in 0..functions as usize {
        if at >= list.len() {
            return Ok(list);
        }
        let f = list[at];
        release(edges, begins[f as usize], f, &mut counts, &mut list)?;
    }
    Ok(list)
}

/// A number for each function: for edges in order that go in no ring, that of a caller is above those of all that it calls.
pub(crate) fn heights(
    alloc: Global,
    functions: u32,
    edges: &[(u32, u32)],
) -> Result<Vec<u32>, OutOfMemory>
    requires { AreBelow functions edges.now }
    ensures { IfOk result (λ heights. length heights.items ≡ functions) }
{
    let order = callers_first(alloc, functions, edges)?;
    let mut heights = vec![in alloc; 0u32; functions as usize]?;
    let mut height = functions;
    for f in order.as_slice() {
        heights[*f as usize] = height;
        height = height.saturating_sub(1);
    }
    Ok(heights)
}

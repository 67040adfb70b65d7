// The calls of a program.

ghost use Rattle.std.specs.Prelude.{◌≡◌, ℕ, ◌+◌, ◌<◌, ◌≤◌, ◌^◌, IfOk, OnOk, All, Some, length, slice_get};
ghost use Rattle.std.specs.Option.{option_map};
ghost use Rattle.core_tree.specs.Typed.{trees_in};
ghost use Rattle.row_numbers.specs.Functions.{functions_of};
ghost use Rattle.call_sites.specs.Calls.{ids_of, givers_in, IsCallSignature, IsSiteAt, AreCalls, AreCallsUpTo};
ghost use Rattle.row_numbers.specs.Frame.{IsFrame, IsNodeIn, setting_in};

use crate::calls::{
    argument_rows, caller, fresh, givers, head_of, is_call, library_at, named_callee, rest_of,
    value_rows,
};
use crate::signatures::calling_signature;
use c_types::term::TypeId;
use core_tree::Node;
use pta_base::{Listing, OutOfMemory};
use row_numbers::frame::{Frame, type_at};
use sol_model::CallSite;
use std::alloc::Global;

// The type of a node, if there is one.
fn id_of(nodes: &[Node], n: u32) -> Option<TypeId>
    ensures { result ≡ option_map (λ node. node.ty) (slice_get nodes.now n) }
{
    if (n as usize) < nodes.len() {
        Some(nodes[n as usize].ty)
    } else {
        None
    }
}

// The types of values.
fn ids_of(alloc: Global, nodes: &[Node], values: &[u32]) -> Result<Vec<TypeId>, OutOfMemory>
    ensures { IfOk result (λ ids. ids.items ≡ ids_of nodes.now values.now) }
{
    let ids = values
        .iter()
        .filter_map(|n| id_of(nodes, *n))
        .collect(alloc)?;
    Ok(ids)
}

// The signature of a call.
fn signature(
    alloc: Global,
    frame: &Frame<'_>,
    callee: u32,
    arguments: &[u32],
) -> Result<u32, OutOfMemory>
    requires frame { IsFrame frame.now }
    requires callee { callee < length frame.now.program.now.nodes.items }
    ensures { IfOk result (λ signature. IsCallSignature (setting_in frame.now) callee arguments.now signature) }
{
    let ids = ids_of(alloc, frame.program.nodes.as_slice(), arguments)?;
    calling_signature(
        alloc,
        &frame.program.types,
        type_at(frame, callee),
        ids.as_slice(),
    )
}

// The call at a node.
fn site(
    alloc: Global,
    frame: &Frame<'_>,
    givers: &[(u32, u32)],
    n: u32,
) -> Result<CallSite, OutOfMemory>
    requires frame { IsFrame frame.now }
    requires node { n < length frame.now.program.now.nodes.items }
    requires givers { givers.now ≡ givers_in (functions_of (setting_in frame.now).trees (setting_in frame.now).space) }
    ensures { IfOk result (λ site. IsSiteAt (setting_in frame.now) n site) }
{
    let nodes = frame.program.nodes.as_slice();
    let node = &nodes[n as usize];
    let children = node.children.as_slice();
    let callee = head_of(children);
    let arguments = rest_of(children);
    let named = named_callee(nodes, children);
    let library = library_at(frame.program.entities.as_slice(), named);
    Ok(CallSite {
        caller: caller(frame, n),
        callee: frame.row(callee),
        signature: signature(alloc, frame, callee, arguments)?,
        direct: named.is_some(),
        place: node.place,
        arguments: argument_rows(alloc, frame, n, callee, arguments)?,
        result: value_rows(alloc, frame, n)?,
        fresh: Listing::of(fresh(alloc, frame.space, n, library, givers)?),
    })
}

// The call at a node, if it is one.
fn push_site(
    alloc: Global,
    frame: &Frame<'_>,
    givers: &[(u32, u32)],
    n: u32,
    sites: &mut Listing<CallSite>,
) -> Result<(), OutOfMemory>
    requires frame { IsFrame frame.now }
    requires node { n < length frame.now.program.now.nodes.items }
    requires givers { givers.now ≡ givers_in (functions_of (setting_in frame.now).trees (setting_in frame.now).space) }
    ensures { OnOk result (AreCallsUpTo (setting_in frame.now) n sites.old → AreCallsUpTo (setting_in frame.now) (n + 1) sites.new) }
{
    if is_call(&frame.program.nodes[n as usize].kind) {
        sites.push(site(alloc, frame, givers, n)?)?;
    }
    Ok(())
}

/// The calls of a program in order of node (C11 6.5.2.2).
pub fn sites(alloc: Global, frame: &Frame<'_>) -> Result<Listing<CallSite>, OutOfMemory>
    requires frame { IsFrame frame.now }
    requires nodes { length frame.now.program.now.nodes.items < 2 ^ 32 }
    requires functions { length frame.now.numbering.now.functions.items < 2 ^ 32 }
    ensures { IfOk result (λ sites. AreCalls (setting_in frame.now) sites) }
{
    let givers = givers(alloc, frame.numbering.functions.as_slice())?;
    let mut sites = Listing::new(alloc);
    for n in 0..frame.program.nodes.len() {
        push_site(alloc, frame, givers.as_slice(), n as u32, &mut sites)?;
    }
    Ok(sites)
}

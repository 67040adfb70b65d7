// The nodes at which the machine may stop for a type.

ghost use Rattle.std.specs.Prelude.{◌≡◌, ◌+◌, ◌<◌, ◌≤◌, ◌^◌, ◌++◌, ◌↔◌, IfOk, OnOk, IsTrue, Some, length, slice_get};
ghost use Rattle.core_tree.specs.Typed.{trees_in};
ghost use Rattle.core_tree.specs.Range.{InRange};
ghost use Rattle.sol_model.specs.Families.{members};
ghost use Rattle.sol_model.specs.Systems.{IsValid, Fits};
ghost use Rattle.obj_space.specs.View.{view_of};
ghost use Rattle.normal_form.specs.SystemOf.{SystemOf};
ghost use Rattle.stop_places.specs.Loose.{IsLoose};
ghost use Rattle.stop_places.specs.Stops.{AreStops, AreStopsBelow, BadCallBy, stop_if, stops_at};
ghost use Rattle.stop_places.specs.Sight.{IsSight, solution_in, solution_of};

use crate::far::far_places;
use crate::loose::{is_loose_program, loose_nodes};
use crate::mismatch::is_mismatch;
use crate::sight::Sight;
use crate::tables::{calls_before, first_rows, led_to_arrays, type_numbers};
use crate::targets::judged_calls;
use core_tree::{Node, NodeKind, Program};
use obj_space::Space;
use pta_base::OutOfMemory;
use sol_model::{Rows, System};
use std::alloc::Global;

/// A node at which the machine may stop for a type: as a bad call, or as a mismatch.
#[derive(Clone, Copy, Debug, PartialEq, Eq)]
pub struct Stop {
    pub node: u32,
    pub call: bool,
}

// Whether a node stands as a bad call.
fn is_bad_call(sight: &Sight<'_>, n: u32, node: &Node) -> bool
    requires sight { IsSight sight.now }
    requires node { slice_get sight.now.program.now.nodes.items n ≡ Some node.now }
    ensures { IsTrue result ↔ BadCallBy (solution_in sight.now) n node.now.kind }
{
    match node.kind {
        NodeKind::CallNode => sight.judged_at(n).bad,
        _ => false,
    }
}

// A node under one reason, where it stands under it.
fn push_if(list: &mut Vec<Stop>, stands: bool, node: u32, call: bool) -> Result<(), OutOfMemory>
    ensures { OnOk result (list.new.items ≡ list.old.items ++ stop_if stands node call) }
{
    if stands {
        list.push(Stop { node, call })?;
    }
    Ok(())
}

// A node under each reason for which it stands.
fn push_stops(list: &mut Vec<Stop>, node: u32, mismatch: bool, bad: bool) -> Result<(), OutOfMemory>
    ensures { OnOk result (list.new.items ≡ list.old.items ++ stops_at node mismatch bad) }
{
    push_if(list, mismatch, node, false)?;
    push_if(list, bad, node, true)?;
    Ok(())
}

// The stops of the nodes below the next one.
fn add_node(
    alloc: Global,
    sight: &Sight<'_>,
    loose: bool,
    n: u32,
    list: &mut Vec<Stop>,
) -> Result<(), OutOfMemory>
    requires sight { IsSight sight.now }
    requires loose { IsTrue loose ↔ IsLoose (solution_in sight.now) }
    requires node { n < length sight.now.program.now.nodes.items }
    ensures { OnOk result (AreStopsBelow (solution_in sight.now) n list.old.items →
        AreStopsBelow (solution_in sight.now) (n + 1) list.new.items) }
{
    let node = &sight.program.nodes[n as usize];
    let mismatch = is_mismatch(alloc, sight, loose, n, node)?;
    let bad = is_bad_call(sight, n, node);
    push_stops(list, n, mismatch, bad)?;
    Ok(())
}

// The stops of all nodes.
fn stops_in(alloc: Global, sight: &Sight<'_>, loose: bool) -> Result<Vec<Stop>, OutOfMemory>
    requires sight { IsSight sight.now }
    requires loose { IsTrue loose ↔ IsLoose (solution_in sight.now) }
    ensures { IfOk result (λ list. AreStops (solution_in sight.now) list.items) }
{
    let mut list = Vec::new(alloc);
    for n in 0..sight.program.nodes.len() {
        add_node(alloc, sight, loose, n as u32, &mut list)?;
    }
    Ok(list)
}

// Whether entities and tags have numbers of 32 bits, with room for the numbers of types without tags.
fn is_numbered(program: &Program) -> bool
    ensures { IsTrue result → (length program.now.entities.items < 2 ^ 32) × (program.now.types.tags + 8 < 2 ^ 32) }
{
    program.entities.as_slice().len() <= u32::MAX as usize
        && program.types.tag_count() < u32::MAX - 7
}

/// The nodes of a program at which the machine may stop for a type, as the sets of its system's rows show it: each that
/// stands as a mismatch and each that stands as a bad call, in order of node, a mismatch first. For the least solution these
/// are all nodes at which a run may stop so. The only error is want of memory: an allocation that failed, or entities or tags
/// past numbers of 32 bits, or over 2^24 rows, which no valid system of a program with a location has.
pub fn stops(
    alloc: Global,
    program: &Program,
    space: &Space,
    system: &System,
    rows: &Rows,
) -> Result<Vec<Stop>, OutOfMemory>
    requires range { InRange (trees_in program.now) }
    requires few { length program.now.nodes.items ≤ 2 ^ 24 }
    requires system { SystemOf program.now (view_of space.now) system.now }
    requires valid { IsValid system.now }
    requires fits { Fits system.now rows.now }
    ensures { IfOk result (λ list. AreStops (solution_of program.now space.now system.now (members rows.now)) list.items) }
{
    if !is_numbered(program) {
        return Err(OutOfMemory);
    }
    let firsts = first_rows(alloc, program, space)?;
    let numbers = type_numbers(alloc, &program.types)?;
    let leads = led_to_arrays(alloc, &program.types)?;
    let far = far_places(alloc, program.nodes.as_slice())?;
    let calls = calls_before(alloc, program.nodes.as_slice())?;
    let judged = judged_calls(alloc, system, rows)?;
    let sight = Sight {
        program,
        space,
        system,
        rows,
        firsts: firsts.as_slice(),
        numbers: numbers.as_slice(),
        leads: leads.as_slice(),
        far: far.as_slice(),
        calls: calls.as_slice(),
        judged: judged.as_slice(),
    };
    let loose = loose_nodes(alloc, &sight)?;
    let is_loose = is_loose_program(&sight, loose.as_slice());
    stops_in(alloc, &sight, is_loose)
}

// What all nodes of a program demand.

ghost use Rattle.std.specs.Prelude.{◌≡◌, ℕ, ◌<◌, ◌^◌, ◌++◌, IsTrue, OnOk, IfOk, length};
ghost use Rattle.normal_form.specs.Assignments.{assignments_at, assignments_of};
ghost use Rattle.row_numbers.specs.Frame.{IsFrame, AreNumbers, IsNumbered, setting_in};
ghost use Rattle.normal_form.specs.SystemOf.{NormalOf};
ghost use Rattle.normal_form.specs.Spots.{HasSpots};
ghost use Rattle.core_tree.specs.Typed.{trees_in};
ghost use Rattle.core_tree.specs.Range.{InRange};
ghost use Rattle.obj_space.specs.View.{view_of};

use crate::kinds::demanded;
use crate::normal::{Assignment, Normal};
use call_sites::sites::sites;
use core_tree::Program;
use obj_space::Space;
use pta_base::{Listing, OutOfMemory};
use row_numbers::around::owners_of;
use row_numbers::frame::{Frame, Numbering, Numbers, number_rows};
use std::alloc::Global;

// What one node demands.
fn node(
    alloc: Global,
    frame: &Frame<'_>,
    n: u32,
    out: &mut Listing<Assignment>,
) -> Result<(), OutOfMemory>
    requires frame { IsFrame frame.now }
    requires node { n < length frame.now.program.now.nodes.items }
    requires spots { HasSpots (setting_in frame.now).trees (setting_in frame.now).space }
    ensures { OnOk result (out.new ≡ out.old ++ assignments_at (setting_in frame.now) n) }
{
    let node = &frame.program.nodes[n as usize];
    demanded(
        alloc,
        frame,
        n,
        &node.kind,
        node.ty,
        node.children.as_slice(),
        out,
    )?;
    Ok(())
}

/// What all nodes demand, where the spots of initialisers are locations.
pub fn assignments(alloc: Global, frame: &Frame<'_>) -> Result<Listing<Assignment>, OutOfMemory>
    requires frame { IsFrame frame.now }
    requires nodes { length frame.now.program.now.nodes.items < 2 ^ 32 }
    requires spots { HasSpots (setting_in frame.now).trees (setting_in frame.now).space }
    ensures { IfOk result (λ out. out ≡ assignments_of (setting_in frame.now)) }
{
    let mut out = Listing::new(alloc);
    for n in 0..frame.program.nodes.len() {
        node(alloc, frame, n as u32, &mut out)?;
    }
    Ok(out)
}

// Whether a program's entities, types and tags have numbers of 32 bits, with room for the nine of types without tags.
fn is_numbered(program: &Program) -> bool
    requires { length program.now.nodes.items < 2 ^ 32 }
    ensures { IsTrue result → IsNumbered program.now }
{
    program.entities.as_slice().len() <= u32::MAX as usize
        && program.types.type_count() < u32::MAX - 1
        && program.types.tag_count() < u32::MAX - 7
}

// The normal form of a program whose rows are numbered.
fn numbered(
    alloc: Global,
    program: &Program,
    space: &Space,
    numbering: &Numbering,
) -> Result<Normal, OutOfMemory>
    requires range { InRange (trees_in program.now) }
    requires numbered { IsNumbered program.now }
    requires numbers { AreNumbers (trees_in program.now) (view_of space.now) numbering.now }
    requires spots { HasSpots (trees_in program.now) (view_of space.now) }
    ensures { IfOk result (λ normal. NormalOf program.now (view_of space.now) normal) }
{
    let owners = owners_of(alloc, program)?;
    let frame = Frame {
        program,
        space,
        owners: owners.as_slice(),
        numbering,
    };
    let assignments = assignments(alloc, &frame)?;
    let calls = sites(alloc, &frame)?;
    Ok(Normal {
        rows: u64::from(numbering.none) + 1,
        assignments,
        calls,
    })
}

/// The normal form of a program in which every type, node and entity that is named is in range, and whose initialisers put
/// values at locations (C11 6.7.9): its rows, the assignments that its nodes demand, and its calls in order of node. Past
/// 2^24 rows it has no assignments and no calls. The error is want of memory: an allocation that failed, or entities, types
/// or tags past numbers of 32 bits, which take over 2^37 bytes.
pub fn normalise(alloc: Global, program: &Program, space: &Space) -> Result<Normal, OutOfMemory>
    requires range { InRange (trees_in program.now) }
    requires nodes { length program.now.nodes.items < 2 ^ 32 }
    requires spots { HasSpots (trees_in program.now) (view_of space.now) }
    ensures normal { IfOk result (λ normal. NormalOf program.now (view_of space.now) normal) }
    ensures numbered { IfOk result (λ normal. IsNumbered program.now) }
{
    if !is_numbered(program) {
        return Err(OutOfMemory);
    }
    match number_rows(alloc, program, space)? {
        Numbers::Few(numbering) => numbered(alloc, program, space, &numbering),
        Numbers::Many(rows) => Ok(Normal {
            rows,
            assignments: Listing::new(alloc),
            calls: Listing::new(alloc),
        }),
    }
}

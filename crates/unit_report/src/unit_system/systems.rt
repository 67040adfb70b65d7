//! The system of a program.

ghost use Rattle.std.specs.Prelude.{◌≡◌, ◌≤◌, ◌^◌, length, IfOk, MatchResult};
ghost use Rattle.core_tree.specs.declared.node.Program.{Program as ProgramSpec};
ghost use Rattle.core_tree.specs.Range.{InRange};
ghost use Rattle.core_tree.specs.Typed.{trees_in};
ghost use Rattle.link_model.specs.filled_units.Filled.{AreFilled};
ghost use Rattle.obj_space.specs.Space.{AreTyped, HasTrees, locations_in};
ghost use Rattle.obj_space.specs.Spots.{HasWholes};
ghost use Rattle.obj_space.specs.View.{view_of};
ghost use Rattle.unit_link.specs.Needs.{AreLinkable};
ghost use Rattle.linked_laws.specs.location_laws.named_laws.Units.{AreNamedUnits};
ghost use Rattle.linked_laws.specs.location_laws.named_laws.Whole.{IsWhole};
ghost use Rattle.linked_laws.specs.system_laws.filled_laws.PassedOn.{ArePlaced};
ghost use Rattle.constraints.specs.System.{IsFaultOf as IsSystemFault};
ghost use Rattle.unit_report.specs.unit_system.Of.{AreLinkedAs, IsSystemOf};
ghost use Rattle.unit_report.specs.unit_system.Right.{IsRight};
ghost use Rattle.unit_report.specs.unit_system.Faults.{IsFaultOf, IsProgramFault};

use crate::unit_system::fault::UnitFault;
use crate::unit_system::linking::linked;
use constraints::{SystemFault, system};
use core_tree::{Program, Unit};
use normal_form::normalise;
use obj_space::{Space, objects};
use pta_base::{OutOfMemory, Text};
use sol_model::System;
use std::alloc::Global;

/// A linked program, its locations, and its system over these.
#[derive(Drop)]
pub struct UnitSystem {
    pub program: Program,
    pub space: Space,
    pub system: System,
}

// A limit that a program passes as a fault of units.
fn fault_of(fault: SystemFault) -> UnitFault
    ensures { (p : ProgramSpec) → IsSystemFault p (view_of (locations_in p)) fault → IsProgramFault p result }
{
    match fault {
        SystemFault::Nodes(nodes) => UnitFault::Nodes(nodes),
        SystemFault::Words(words) => UnitFault::Words(words),
        SystemFault::OutOfMemory => UnitFault::OutOfMemory,
    }
}

// The system of a program over its locations.
fn system_over(alloc: Global, program: &Program, space: &Space) -> Result<System, UnitFault>
    requires range { InRange (trees_in program.now) }
    requires few { length program.now.nodes.items ≤ 2 ^ 24 }
    requires space { space.now ≡ locations_in program.now }
    requires right { IsRight program.now }
    requires placed { ArePlaced program.now }
    requires typed { AreTyped program.now.types space.now }
    requires trees { HasTrees program.now.types space.now }
    requires wholes { HasWholes program.now.types space.now }
    ensures { MatchResult result (IsSystemOf program.now space.now) (IsProgramFault program.now) }
{
    let _types = program.types.type_count();
    let _locations = space.count();
    let normal = normalise(alloc, program, space)?;
    let system = match system(alloc, program, space, &normal) {
        Ok(system) => system,
        Err(fault) => return Err(fault_of(fault)),
    };
    Ok(system)
}

// The locations of a program, and its system over these. A program with over 2^24 nodes is refused before anything is made
// of its nodes.
fn system_of(alloc: Global, program: &Program) -> Result<(Space, System), UnitFault>
    requires range { InRange (trees_in program.now) }
    requires right { IsRight program.now }
    requires placed { ArePlaced program.now }
    ensures { MatchResult result (λ made. IsSystemOf program.now made.0 made.1) (IsProgramFault program.now) }
{
    let nodes = program.nodes.as_slice().len();
    if nodes > 1 << 24 {
        return Err(UnitFault::Nodes(nodes as u64));
    }
    let space = objects(alloc, program)?;
    let system = system_over(alloc, program, &space)?;
    Ok((space, system))
}

/// The program that valid units of distinct names are, which initialise only objects that they define, its locations and its system over
/// these, where it is within the limits; or the first fault of linking them, or the limit that their program passes first: 2^24 nodes,
/// then 2^24 words of rows. It is entered at the functions of these names, or where there are none it begins at main. Where the parts of
/// the units are told apart by name and place, the program is whole: no two of its external entities have one name, and no two of its
/// locations, each entity that is used is defined or the library's, and without entries it has a main (C11 5.1.2.2.1, 6.9p5).
pub fn linked_system(
    alloc: Global,
    units: Vec<Unit>,
    entries: &[Text],
) -> Result<UnitSystem, UnitFault>
    requires linkable { AreLinkable units.items }
    requires filled { AreFilled units.items }
    ensures linked { MatchResult result (λ made. AreLinkedAs entries.now units.items made.program made.space made.system)
        (IsFaultOf entries.now units.items) }
    ensures whole { AreNamedUnits units.items → IfOk result (λ made. IsWhole made.program) }
{
    let program = linked(alloc, units, entries)?;
    let _types = program.types.type_count();
    match system_of(alloc, &program) {
        Ok((space, system)) => Ok(UnitSystem {
            program,
            space,
            system,
        }),
        Err(fault) => Err(fault),
    }
}

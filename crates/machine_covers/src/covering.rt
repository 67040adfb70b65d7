// Whether sets cover a state of a machine.

ghost use Rattle.std.specs.Prelude.{◌≡◌, ◌↔◌, ◌<◌, ◌^◌, IsTrue, length};
ghost use Rattle.sol_model.specs.Systems.{IsValid, Fits};
ghost use Rattle.sol_model.specs.Families.{members};
ghost use Rattle.ref_cells.specs.Places.{AreKnown};
ghost use Rattle.ref_machine.specs.Machines.{IsMachineOf};
ghost use Rattle.row_covers.specs.Scene.{IsScene, sight_of};
ghost use Rattle.machine_covers.specs.Decided.{PartsBy, StateBy, sight_over};
ghost use Rattle.machine_covers.specs.Whole.{TellsCovered};

use crate::bare::are_awaited;
use crate::frames::{are_frames_covered, are_handed_covered, are_kept_covered, are_notes_covered};
use c_types::key::ObjectKey;
use c_types::term::TypeId;
use core_tree::Program;
use obj_space::Space;
use ref_cells::cells::Cell;
use ref_cells::instance::Instance;
use ref_machine::machine::Machine;
use ref_machine::prepared::trees_over;
use ref_state::frames::Frame;
use ref_state::notes::Notes;
use row_covers::objects::is_memory_covered;
use row_covers::scene::Scene;
use sol_model::{Rows, System};

// Whether sets cover the parts of a state.
fn are_parts_covered(
    scene: &Scene<'_>,
    memory: &[Instance],
    frames: &[Frame],
    kept: &[(ObjectKey, u32)],
    notes: &Notes,
    handed: &[(TypeId, Cell)],
) -> bool
    requires scene { IsScene scene.now }
    requires known { AreKnown (length scene.now.trees.types.now.terms) memory.now }
    ensures { IsTrue result ↔ PartsBy (sight_of scene.now) memory.now frames.now kept.now notes.now handed.now }
{
    is_memory_covered(scene, memory)
        && are_frames_covered(scene, memory, frames)
        && are_kept_covered(scene, kept)
        && are_notes_covered(scene, memory, notes)
        && are_handed_covered(scene, memory, handed)
        && are_awaited(scene, memory, frames)
}

/// Whether sets cover the state of a machine: each pointer or function in a cell of memory is in the row of the cell's location, what items
/// hold is in the rows of their nodes, what is returned in those of the result; each frame's function is a target of the call that entered
/// it, or stands in the call graph under the function of the library that called it back; pending functions of the library, kept functions
/// and notes are covered; each instance, one that has ended too, is of its object and type, each path stands in its tree, and an object
/// that waits for the type of a conversion is pointed to by that conversion's operand alone; what was handed over to the outside is in the
/// row of what lies there. It takes no memory. The time that it takes grows
/// with memory, frames and items one by one; the row of each node's value, and the number of each call, is counted over the nodes before.
///
/// Where the system is that of the machine's program over this space, this is `IsCovered`: what the invariant of steps says of memory,
/// values, frames, kept functions, notes, what was handed over and objects that wait for a type.
///
/// It needs the program with which the machine was started, the space and the valid system of that program, and rows of that system's size.
pub fn covers(
    space: &Space,
    system: &System,
    rows: &Rows,
    program: &Program,
    machine: &Machine,
) -> bool
    requires machine { IsMachineOf program.now machine.now }
    requires nodes { length program.now.nodes.items < 2 ^ 32 }
    requires valid { IsValid system.now }
    requires fits { Fits system.now rows.now }
    ensures decided { IsTrue result ↔ StateBy (sight_over program.now space.now system.now (members rows.now)) machine.now.state }
    ensures covered { TellsCovered (IsTrue result) program.now space.now system.now (members rows.now) machine.now.state }
{
    let scene = Scene {
        trees: trees_over(program, machine.types()),
        space,
        system,
        rows,
    };
    are_parts_covered(
        &scene,
        machine.memory().instances(),
        machine.frames(),
        machine.kept(),
        machine.notes(),
        machine.handed(),
    )
}

// What is found of a program once, before it runs.

ghost use Rattle.std.specs.Prelude.{◌≡◌, IfOk};
ghost use Rattle.core_tree.specs.Seen.{core_of};
ghost use Rattle.core_tree.specs.Typed.{trees_in};
ghost use Rattle.core_tree.specs.Range.{InRange};
ghost use Rattle.ref_frames.specs.Made.{IsRunning, seen};
ghost use Rattle.ref_machine.specs.Types.{running};

use c_types::table::TypeTable;
use c_types::term::OutOfMemory;
use core_tree::Program;
use core_tree::trees::Trees;
use obj_space::{Space, objects};
use pta_base::Listing;
use ref_blocks::plan::Plan;
use ref_frames::running::{Running, parameters_of};
use ref_state::ref_types::types::{LibraryTypes, with_library_types};
use std::alloc::Global;

/// A machine's table of types, the numbers of the library's types in it, the program's locations, the node above each node
/// with the objects of each block, and the parameters of each function.
#[derive(Drop)]
pub struct Prepared {
    pub types: TypeTable,
    pub library: LibraryTypes,
    pub space: Space,
    pub plan: Plan,
    pub parameters: Vec<Listing<u32>>,
}

/// The trees of a program over a table of types.
pub fn trees_over<'a>(program: &'a Program, types: &'a TypeTable) -> Trees<'a>
    ensures { core_of result ≡ record (trees_in program.now) { types = types.now } }
{
    Trees {
        types,
        nodes: program.nodes.as_slice(),
        entities: program.entities.as_slice(),
    }
}

impl Prepared {
    ghost use Rattle.ref_machine.specs.Machines.{IsPreparedOf, IsGrounded};

    /// What is found of a program.
    pub fn of(alloc: Global, program: &Program) -> Result<Prepared, OutOfMemory>
        requires { InRange (trees_in program.now) }
        ensures { IfOk result (IsPreparedOf program.now) }
    {
        let Ok(space) = objects(alloc, program) else {
            return Err(OutOfMemory);
        };
        let _ = program.types.type_count();
        let (types, library) = with_library_types(alloc, &program.types)?;
        let trees = trees_over(program, &types);
        let plan = Plan::of(alloc, &trees)?;
        let parameters = parameters_of(alloc, trees.entities, &space)?;
        Ok(Prepared {
            types,
            library,
            space,
            plan,
            parameters,
        })
    }

    /// The program with its locations and parameters.
    pub fn running<'a>(&'a self, alloc: Global, program: &'a Program) -> Running<'a>
        requires { IsPreparedOf program.now self.now }
        ensures running { IsRunning result }
        ensures seen { seen result ≡ running program.now }
        ensures grounded { IsGrounded (running program.now) }
    {
        let _ = self.types.type_count();
        Running {
            alloc,
            trees: trees_over(program, &self.types),
            space: &self.space,
            parameters: self.parameters.as_slice(),
            characters: self.library.character,
            entries: program.entries.as_slice(),
        }
    }
}

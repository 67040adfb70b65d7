// The machine.

ghost use Rattle.std.specs.Prelude.{◌≡◌, IfOk, length, reverse};
ghost use Rattle.core_tree.specs.Typed.{trees_in};
ghost use Rattle.core_tree.specs.Range.{InRange};
ghost use Rattle.ref_cells.specs.Places.{AreKnown};
ghost use Rattle.ref_state.specs.ref_types.Types.{types_with};
ghost use Rattle.ref_calls.specs.Outcomes.{Steps};
ghost use Rattle.ref_start.specs.Handed.{AreRead};
ghost use Rattle.ref_machine.specs.Machines.{IsPreparedOf};
ghost use Rattle.ref_machine.specs.Types.{running};
ghost use Rattle.ref_machine.specs.Step.{step};
ghost use Rattle.ref_machine.specs.Standing.{AreStanding};

use crate::choices::{item_chooses, outside_chooses};
use crate::prepared::Prepared;
use crate::steps::{frame_step, outside_step};
use c_types::key::ObjectKey;
use c_types::table::TypeTable;
use c_types::term::{OutOfMemory, TypeId};
use core_tree::Program;
use obj_space::Space;
use pta_base::Listing;
use ref_cells::cells::Cell;
use ref_frames::frames::depth;
use ref_mem::memory::Memory;
use ref_start::handed::{HandedPlaces, no_places};
use ref_start::standing::{Standing, standing_in};
use ref_start::start::start_memory;
use ref_state::frames::{Frame, Frames};
use ref_state::notes::Notes;
use ref_state::state::{State, StepAnswer};
use std::alloc::Global;

// The frames, the top one last.
fn listed(frames: &Frames) -> &[Frame]
    ensures { result.now ≡ reverse frames.now }
{
    frames.list.as_slice()
}

// A step, whose objects' types stay those of the machine's table, and their instances where they are. What is kept of the pointers
// that were handed over stays right.
fn stepped(
    alloc: Global,
    prepared: &Prepared,
    standing: &Standing,
    program: &Program,
    kept: &mut HandedPlaces,
    state: &mut State,
    word: u64,
) -> Result<StepAnswer, OutOfMemory>
    requires prepared { IsPreparedOf program.now prepared.now }
    requires known { AreKnown (length (types_with program.now.types).terms) state.old.memory }
    requires standing { AreStanding standing.now state.old.memory }
    requires handed { AreRead (types_with program.now.types) state.old.handed kept.old }
    ensures step { Steps result state.old state.new (step (running program.now) state.old word) }
    ensures known { AreKnown (length (types_with program.now.types).terms) state.new.memory }
    ensures standing { AreStanding standing.now state.new.memory }
    ensures handed { AreRead (types_with program.now.types) state.new.handed kept.new }
{
    let running = prepared.running(alloc, program);
    if depth(&state.frames) > 0 {
        frame_step(&running, &prepared.plan, standing, state, word)
    } else {
        outside_step(&running, prepared.library, kept, state, word)
    }
}

/// A program that runs, one step at a time.
#[derive(Drop)]
pub struct Machine {
    alloc: Global,
    prepared: Prepared,
    standing: Standing,
    places: HandedPlaces,
    state: State,
}

impl Machine {
    ghost use Rattle.ref_machine.specs.Machines.{IsMachineOf};
    ghost use Rattle.ref_machine.specs.Types.{running};
    ghost use Rattle.ref_machine.specs.Run.{start, run_from};
    ghost use Rattle.ref_machine.specs.Step.{step, chooses};
    ghost use Rattle.ref_calls.specs.Outcomes.{Steps};

    /// The machine of a program that starts: the objects that live for the whole run are there, with their initialisers, and
    /// neither main nor an entry is entered yet.
    pub fn start(alloc: Global, program: &Program) -> Result<Machine, OutOfMemory>
        requires { InRange (trees_in program.now) }
        ensures machine { IfOk result (IsMachineOf program.now) }
        ensures state { IfOk result (λ machine. machine.state ≡ start program.now) }
    {
        let prepared = Prepared::of(alloc, program)?;
        let running = prepared.running(alloc, program);
        let memory = start_memory(alloc, &running.trees, prepared.library, &prepared.space)?;
        let standing = standing_in(alloc, memory.instances())?;
        Ok(Machine {
            alloc,
            prepared,
            standing,
            places: no_places(alloc),
            state: State {
                memory,
                frames: Frames::new(alloc),
                kept: Listing::new(alloc),
                status: None,
                notes: Notes::none(alloc),
                handed: Listing::new(alloc),
            },
        })
    }

    /// Whether the next step takes a word. It takes no memory.
    pub fn chooses(&self, program: &Program) -> bool
        requires { IsMachineOf program.now self.now }
        ensures { result ≡ chooses (running program.now) self.now.state }
    {
        let running = self.prepared.running(self.alloc, program);
        match self.state.frames.top() {
            Some(frame) => item_chooses(&running.trees, &frame.items),
            None => outside_chooses(&running, self.state.status),
        }
    }

    /// One step, with a word that it looks at where it chooses. After want of memory, and after an answer other than `Went`,
    /// the machine is as it was.
    pub fn step(&mut self, program: &Program, word: u64) -> Result<StepAnswer, OutOfMemory>
        requires machine { IsMachineOf program.now self.old }
        ensures step { Steps result self.old.state self.new.state (step (running program.now) self.old.state word) }
        ensures kept { IsMachineOf program.now self.new }
    {
        stepped(
            self.alloc,
            &self.prepared,
            &self.standing,
            program,
            &mut self.places,
            &mut self.state,
            word,
        )
    }

    /// The memory. It takes no memory.
    pub fn memory(&self) -> &Memory
        ensures { result.now ≡ self.now.state.memory }
    {
        &self.state.memory
    }

    /// The frames, the top one last. It takes no memory.
    pub fn frames(&self) -> &[Frame]
        ensures { result.now ≡ reverse self.now.state.frames }
    {
        listed(&self.state.frames)
    }

    /// The functions that `atexit` keeps, the last one last, each with the node of the call that kept it.
    pub fn kept(&self) -> &[(ObjectKey, u32)]
        ensures { result.now ≡ self.now.state.kept }
    {
        self.state.kept.as_slice()
    }

    /// What the last step that went noted.
    pub fn notes(&self) -> &Notes
        ensures { result.now ≡ self.now.state.notes }
    {
        &self.state.notes
    }

    /// The pointers to data and to functions that were handed over between the program and those who call its entries, each
    /// with its type, in order: those that entries were given new, and those that they gave. It takes no memory.
    pub fn handed(&self) -> &[(TypeId, Cell)]
        ensures { result.now ≡ self.now.state.handed }
    {
        self.state.handed.as_slice()
    }

    /// The types of its objects: those of the program, and behind them those of the library's objects.
    pub fn types(&self) -> &TypeTable
        ensures { result.now ≡ self.now.prepared.types }
    {
        &self.prepared.types
    }

    /// The locations of its program.
    pub fn space(&self) -> &Space
        ensures { result.now ≡ self.now.prepared.space }
    {
        &self.prepared.space
    }
}

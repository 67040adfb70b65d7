// Blocks left and entered, and items put in place of others.

ghost use Rattle.std.specs.Prelude.{◌≡◌, ◌≤◌, [], ◌++◌, IfOk, OnOk, OnErr, length};
ghost use Rattle.ref_state.specs.Changes.{ended_one, ended_all};
ghost use Rattle.ref_state.specs.Items.{replaced};

use crate::frames::Frame;
use crate::items::{Items, put_in_place};
use c_types::term::OutOfMemory;
use pta_base::Listing;
use ref_cells::instance::Instance;
use ref_mem::memory::Memory;
use std::alloc::Global;

/// Blocks left and entered, before the memory is changed: a frame's instances, the objects that are to be made, behind those
/// of the memory, and the instances that are to end.
#[derive(Drop)]
pub struct Doors {
    pub own: Listing<u32>,
    pub fresh: Listing<Instance>,
    pub ended: Listing<u32>,
}

/// What a step that computes nothing leaves of the top frame: so many items go from the top, others come on top, and blocks
/// are left and entered.
#[derive(Drop)]
pub struct Change {
    pub off: usize,
    pub on: Items,
    pub doors: Doors,
}

impl Doors {
    /// The instances of a frame as they are: none is to be made, and none to end.
    pub fn of(alloc: Global, own: &[u32]) -> Result<Doors, OutOfMemory>
        ensures { IfOk result (λ doors. doors ≡ record { own = own.now; fresh = []; ended = [] }) }
    {
        let own = Vec::from_slice(alloc, own)?;
        Ok(Doors {
            own: Listing::of(own),
            fresh: Listing::new(alloc),
            ended: Listing::new(alloc),
        })
    }
}

// Ends an instance, where there is one of that number.
fn end_one(memory: &mut Memory, i: u32)
    ensures { memory.new ≡ ended_one memory.old i }
{
    if (i as usize) < memory.instances().len() {
        memory.end(i);
    }
}

/// Ends instances. It takes no memory.
pub fn end_all(memory: &mut Memory, ended: &[u32])
    ensures { memory.new ≡ ended_all memory.old ended.now }
{
    for i in ended {
        end_one(memory, *i);
    }
}

/// Leaves blocks where none was entered. It takes no memory.
pub fn close(memory: &mut Memory, frame: &mut Frame, doors: Doors)
    ensures memory { memory.new ≡ ended_all memory.old doors.ended }
    ensures frame { frame.new ≡ record frame.old { instances = doors.own } }
{
    end_all(memory, doors.ended.as_slice());
    frame.instances = doors.own;
}

/// Makes a change. At `Err` nothing has changed.
pub fn commit(memory: &mut Memory, frame: &mut Frame, change: Change) -> Result<(), OutOfMemory>
    requires { change.off ≤ length frame.old.items }
    ensures memory { OnOk result (memory.new ≡ ended_all (memory.old ++ change.doors.fresh) change.doors.ended) }
    ensures frame { OnOk result (frame.new ≡ record frame.old {
      instances = change.doors.own;
      items = replaced change.off change.on frame.old.items;
    }) }
    ensures err { OnErr result ((memory.new ≡ memory.old) × (frame.new ≡ frame.old)) }
{
    let Change { off, on, doors } = change;
    let Doors { own, fresh, ended } = doors;
    put_in_place(memory, &mut frame.items, fresh.into_vec(), off, on)?;
    end_all(memory, ended.as_slice());
    frame.instances = own;
    Ok(())
}

// A sink in memory of a fixed room, which fails at chosen calls.
ghost use Rattle.std.specs.Prelude.{◌≡◌, ◌⊎◌, ◌+◌, ◌-◌, ◌^◌, ◌<◌, ◌≤◌, [], ◌++◌, length, min, take, Some, None};
ghost use Rattle.std.specs.Prelude.{option_map, IfOk, OnOk, OnErr};
ghost use Rattle.std.specs.Option.{ForSome};
ghost use Rattle.pta_base.specs.Outside.{HasRisen};
ghost use Rattle.pta_base.specs.Steps.{within};

use crate::steps::within;
use crate::{Failed, OutOfMemory, Sink};
use std::alloc::Global;

/// Bytes that were written, in a room that was taken at the start. Each write fails whose number, from 0, is listed,
/// and so does one to a full room.
#[derive(Drop)]
pub struct MemorySink {
    room: Vec<u8>,
    len: usize,
    failing: Vec<u64>,
    step: Option<usize>,
    calls: u64,
    faults: u64,
    ghost stepping: { ForSome step (λ bytes. 0 < bytes) },
    ghost within: { len ≤ length room.items },
}

impl MemorySink {
    ghost use Rattle.pta_base.specs.MemorySink.{writes_of, failing_of, room_of, step_of};

    /// A sink with room for so many bytes, in which nothing is written, and the numbers of the writes that are to fail.
    /// Takes the room's memory, so that no write takes any.
    pub fn new(alloc: Global, room: usize, failing: Vec<u64>) -> Result<MemorySink, OutOfMemory>
        ensures written { IfOk result (λ sink. ⟦<MemorySink as Sink>⟧.written sink ≡ Some []) }
        ensures faults { IfOk result (λ sink. ⟦<MemorySink as Sink>⟧.faults sink ≡ 0) }
        ensures room { IfOk result (λ sink. room_of sink ≡ room) }
        ensures failing { IfOk result (λ sink. failing_of sink ≡ failing.items) }
        ensures writes { IfOk result (λ sink. writes_of sink ≡ 0) }
        ensures step { IfOk result (λ sink. step_of sink ≡ None) }
    {
        let room = vec![in alloc; 0u8; room]?;
        Ok(MemorySink {
            room,
            len: 0,
            failing,
            step: None,
            calls: 0,
            faults: 0,
        })
    }

    /// The same with writes that are short: each takes at most so many bytes, at least 1.
    pub fn short(
        alloc: Global,
        room: usize,
        failing: Vec<u64>,
        step: usize,
    ) -> Result<MemorySink, OutOfMemory>
        requires { 0 < step }
        ensures written { IfOk result (λ sink. ⟦<MemorySink as Sink>⟧.written sink ≡ Some []) }
        ensures faults { IfOk result (λ sink. ⟦<MemorySink as Sink>⟧.faults sink ≡ 0) }
        ensures room { IfOk result (λ sink. room_of sink ≡ room) }
        ensures failing { IfOk result (λ sink. failing_of sink ≡ failing.items) }
        ensures writes { IfOk result (λ sink. writes_of sink ≡ 0) }
        ensures step { IfOk result (λ sink. step_of sink ≡ Some step) }
    {
        let room = vec![in alloc; 0u8; room]?;
        Ok(MemorySink {
            room,
            len: 0,
            failing,
            step: Some(step),
            calls: 0,
            faults: 0,
        })
    }

    /// What was written. Takes no memory.
    pub fn written(&self) -> &[u8]
        ensures { Some result.now ≡ ⟦<MemorySink as Sink>⟧.written self.now }
    {
        &self.room[..self.len]
    }
}

/// Puts a prefix of a piece into the room from a place on, as much as there is room for and as a step allows.
fn put(room: &mut [u8], at: usize, step: Option<usize>, piece: &[u8]) -> usize
    requires { at ≤ length room.old }
    ensures count { result ≡ within step (min (length piece.now) (length room.old - at)) }
    ensures fits { at + result ≤ length room.new }
    ensures put { take (at + result) room.new ≡ take at room.old ++ take result piece.now }
{
    let count = within(step, piece.len().min(room.len() - at));
    room[at..at + count].copy_from_slice(&piece[..count]);
    count
}

impl Sink for MemorySink {
    ghost use Rattle.pta_base.specs.MemorySink.{writes_of, failing_of, room_of, step_of, IsListed};

    ghost written = { λ sink. Some (take sink.len sink.room.items) };

    ghost faults = { λ sink. sink.faults };

    /// Takes no memory. Fails exactly where this write is listed or there is no room, and else takes as much of the piece
    /// as there is room for.
    fn write(&mut self, piece: &[u8]) -> Result<usize, Failed>
        requires { 0 < length piece.now }
        ensures some { IfOk result (λ count. 0 < count) }
        ensures within { IfOk result (λ count. count ≤ length piece.now) }
        ensures taken { IfOk result
            (λ count. Some (take self.new.len self.new.room.items)
            ≡ option_map (λ before. before ++ take count piece.now) (Some (take self.old.len self.old.room.items))) }
        ensures err { OnErr result (Some (take self.new.len self.new.room.items) ≡ Some (take self.old.len self.old.room.items)) }
        ensures cause { OnErr result (HasRisen self.old.faults self.new.faults) }
        ensures steady { OnOk result (self.new.faults ≡ self.old.faults) }
        ensures rises { self.old.faults ≤ self.new.faults }
        ensures fails { OnErr result (IsListed self.old ⊎ (room_of self.old ≡ 0)) }
        ensures spared { OnOk result (¬ IsListed self.old) }
        ensures count { IfOk result (λ count. count ≡ within (step_of self.old) (min (length piece.now) (room_of self.old))) }
        ensures stepped { step_of self.new ≡ step_of self.old }
        ensures counted { writes_of self.new ≡ min (writes_of self.old + 1) (2 ^ 64 - 1) }
        ensures listed { failing_of self.new ≡ failing_of self.old }
    {
        let number = self.calls;
        self.calls = number.saturating_add(1);
        if self.failing.contains(&number) {
            self.faults = self.faults.saturating_add(1);
            return Err(Failed);
        }
        if self.len == self.room.len() {
            self.faults = self.faults.saturating_add(1);
            return Err(Failed);
        }
        let count = put(&mut self.room, self.len, self.step, piece);
        self.len += count;
        Ok(count)
    }
}

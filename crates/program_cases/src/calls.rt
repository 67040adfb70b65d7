// A call of `analyse` over texts and sinks in memory.
use pta_base::{Gate, MemorySink, MemoryUnits, OutOfMemory};
use report_cli::analyse;
use std::alloc::Global;
use std::sync::Wait;
use std::thread::Threads;

pub(crate) struct OpenGate;

impl Gate for OpenGate {
    fn pass(&self, _worker: u32, _turn: u32) {}
}

/// A call, and what it has to answer.
#[derive(Clone, Copy)]
pub(crate) struct Case<'a> {
    /// The words, which stand apart by single spaces.
    pub(crate) words: &'a str,
    /// The names of texts, which stand apart by single spaces.
    pub(crate) names: &'a str,
    /// The texts under these names, which stand apart by carets.
    pub(crate) texts: &'a str,
    /// The number of the read that fails.
    pub(crate) read: Option<u64>,
    /// The number of the write to `out` that fails.
    pub(crate) write: Option<u64>,
    /// How many bytes a read or a write takes at the most; 0 for all.
    pub(crate) step: usize,
    /// How many bytes `out` has room for.
    pub(crate) room: usize,
    pub(crate) status: u8,
    /// What is written to `out`.
    pub(crate) out: &'a str,
    /// What is written to `err`.
    pub(crate) err: &'a str,
}

/// How many bytes a sink has room for, if nothing else is said.
pub(crate) const ROOM: usize = 65536;

fn words_of(alloc: Global, line: &str) -> Result<Vec<String>, OutOfMemory> {
    let mut words = Vec::new(alloc);
    for word in line.split(' ') {
        if !word.is_empty() {
            words.push(word.to_string(alloc)?)?;
        }
    }
    Ok(words)
}

fn failing(alloc: Global, number: Option<u64>) -> Result<Vec<u64>, OutOfMemory> {
    let mut failing = Vec::new(alloc);
    if let Some(number) = number {
        failing.push(number)?;
    }
    Ok(failing)
}

fn units_of(alloc: Global, case: &Case<'_>) -> Result<MemoryUnits, OutOfMemory> {
    let mut named = Vec::new(alloc);
    let mut texts = case.texts.split('^');
    for name in case.names.split(' ') {
        let text = texts.next().unwrap_or("").as_bytes();
        named.push((name.to_string(alloc)?, text.to_vec(alloc)?))?;
    }
    let failing = failing(alloc, case.read)?;
    if case.step == 0 {
        Ok(MemoryUnits::new(named, failing))
    } else {
        Ok(MemoryUnits::short(named, failing, case.step))
    }
}

fn sink_of(
    alloc: Global,
    room: usize,
    write: Option<u64>,
    step: usize,
) -> Result<MemorySink, OutOfMemory> {
    let failing = failing(alloc, write)?;
    if step == 0 {
        MemorySink::new(alloc, room, failing)
    } else {
        MemorySink::short(alloc, room, failing, step)
    }
}

fn status_of<R: Threads + Wait + Sync, G: Gate + Sync>(
    rt: &R,
    alloc: Global,
    words: &[String],
    units: &mut MemoryUnits,
    out: &mut MemorySink,
    err: &mut MemorySink,
    gate: &G,
) -> u8 {
    let mut kept = None;
    analyse(rt, alloc, words, units, out, err, gate, &mut kept)
}

/// Whether a call answers what it has to, where workers pass a gate.
pub(crate) fn is_answered<R: Threads + Wait + Sync, G: Gate + Sync>(
    rt: &R,
    alloc: Global,
    case: &Case<'_>,
    gate: &G,
) -> Result<bool, OutOfMemory> {
    let words = words_of(alloc, case.words)?;
    let mut units = units_of(alloc, case)?;
    let mut out = sink_of(alloc, case.room, case.write, case.step)?;
    let mut err = sink_of(alloc, ROOM, None, case.step)?;
    let status = status_of(
        rt,
        alloc,
        words.as_slice(),
        &mut units,
        &mut out,
        &mut err,
        gate,
    );
    let same = out.written() == case.out.as_bytes() && err.written() == case.err.as_bytes();
    Ok(same && status == case.status)
}

//! The rounds with 1, 2 and 64 workers on systems of each form, against least sets that were worked out on paper and
//! against the plain solver.
ghost use Rattle.std.specs.Prelude.{◌<◌, ◌≤◌};
ghost use Rattle.sol_model.specs.Systems.{IsValid};

use crate::gates::{Both, Counted, Open, Slow};
use crate::reading::{sets_of, system_of, worked};
use crate::systems::{LONG_RING, SYSTEMS, WIDE};
use call_graph::system_check::is_valid;
use pta_base::{Gate, OutOfMemory};
use set_rows::RowTable;
use sol_model::{Constraint, System, plain_solve};
use std::alloc::Global;
use std::thread::Threads;
use work_rounds::solve;

/// Whether a system that is solved on shared rows has these words.
fn agrees<R: Threads + Sync, G: Gate + Sync>(
    rt: &R,
    alloc: Global,
    system: &System,
    workers: u32,
    gate: &G,
    words: &[u64],
) -> Result<bool, OutOfMemory>
    requires valid { IsValid system.now }
    requires workers { (0 < workers) × (workers ≤ 64) }
{
    let (table, mut seat) = RowTable::new(alloc, system)?;
    solve(rt, alloc, system, &table, &mut seat, workers, gate)?;
    let rows = table.copy_rows(alloc, &mut seat)?;
    Ok(rows.words.as_slice() == words)
}

/// Whether the plain solver's rows begin with those wanted, and 1, 2 and 64 workers find the plain solver's.
fn all_agree<R: Threads + Sync>(
    rt: &R,
    alloc: Global,
    system: &System,
    rows: &[u64],
) -> Result<bool, OutOfMemory> {
    if !is_valid(system) {
        return Ok(false);
    }
    let plain = plain_solve(alloc, system)?;
    let words = plain.words.as_slice();
    let mut all = words.starts_with(rows);
    for workers in [1u32, 2, 64] {
        all &= agrees(rt, alloc, system, workers, &Open, words)?;
    }
    Ok(all)
}

/// Whether this is so of a text's system and its sets.
fn is_agreed<R: Threads + Sync>(rt: &R, alloc: Global, text: &str) -> Result<bool, OutOfMemory> {
    let sets = sets_of(alloc, text)?;
    let case = system_of(alloc, text)?;
    all_agree(rt, alloc, &case, sets.as_slice())
}

#[test]
fn worked_systems(rt: HostRuntime) -> Result<(), OutOfMemory> {
    for text in SYSTEMS.split("\n\n") {
        let all = is_agreed(&rt, rt.alloc(), text)?;
        assert!(rt; all, "{text}");
    }
    Ok(())
}

/// Whether two workers come to a gate at once, neither waits in vain, and the rows are all those wanted.
fn meet_at_the_gate<R: Threads + Sync>(
    rt: &R,
    alloc: Global,
    text: &str,
) -> Result<bool, OutOfMemory> {
    let sets = sets_of(alloc, text)?;
    let case = system_of(alloc, text)?;
    if !is_valid(&case) {
        return Ok(false);
    }
    let gate = Both::new(0);
    let same = agrees(rt, alloc, &case, 2, &gate, sets.as_slice())?;
    Ok(same && gate.have_met())
}

#[test]
fn two_workers_at_once(rt: HostRuntime) -> Result<(), OutOfMemory> {
    for name in ["two addresses", "a linked list"] {
        let both = meet_at_the_gate(&rt, rt.alloc(), worked(name))?;
        assert!(rt; both, "{name}");
    }
    Ok(())
}

/// Row 2 gets an address and goes to 297 rows, and each of them goes to row 0.
fn wide(alloc: Global) -> Result<System, OutOfMemory> {
    let mut made = system_of(alloc, WIDE)?;
    for row in 3u32..300 {
        made.constraints
            .push(Constraint::Copy { from: 2, to: row })?;
        made.constraints
            .push(Constraint::Copy { from: row, to: 0 })?;
    }
    Ok(made)
}

/// Whether one worker's turns count up from 0 to 298 in some round and have no gap in any, and its rows are those wanted.
fn turns_are_counted<R: Threads + Sync>(
    rt: &R,
    alloc: Global,
    system: &System,
    rows: &[u64],
) -> Result<bool, OutOfMemory> {
    if !is_valid(system) {
        return Ok(false);
    }
    let gate = Counted::new();
    let same = agrees(rt, alloc, system, 1, &gate, rows)?;
    Ok(same && gate.turns() == Some(298))
}

// All 299 rows are pieces of the first round.
#[test]
fn wide_round(rt: HostRuntime) -> Result<(), OutOfMemory> {
    let case = wide(rt.alloc())?;
    let mut rows = [1u64; 300];
    rows[1] = 0;
    let all = all_agree(&rt, rt.alloc(), &case, &rows)?;
    let counted = turns_are_counted(&rt, rt.alloc(), &case, &rows)?;
    assert!(rt; all && counted, "{all} {counted}");
    Ok(())
}

/// Whether so many workers at gates that are slow in four ways find these words, and pass each gate at least so many times.
fn agree_slowly<R: Threads + Sync>(
    rt: &R,
    alloc: Global,
    system: &System,
    workers: u32,
    words: &[u64],
    pieces: u64,
) -> Result<bool, OutOfMemory>
    requires valid { IsValid system.now }
    requires workers { (0 < workers) × (workers ≤ 64) }
{
    let mut all = true;
    for kind in 0u32..4 {
        let gate = Slow::new(kind);
        all &= agrees(rt, alloc, system, workers, &gate, words)?;
        all &= gate.count() >= pieces;
    }
    Ok(all)
}

/// Whether the plain solver's rows begin with those wanted, and 1, 2 and 64 workers at slow gates find the plain solver's. A gate must
/// have been passed at least once for each of so many rows.
fn all_agree_slowly<R: Threads + Sync>(
    rt: &R,
    alloc: Global,
    system: &System,
    rows: &[u64],
    pieces: u64,
) -> Result<bool, OutOfMemory> {
    if !is_valid(system) {
        return Ok(false);
    }
    let plain = plain_solve(alloc, system)?;
    let words = plain.words.as_slice();
    let mut all = words.starts_with(rows);
    for workers in [1u32, 2, 64] {
        all &= agree_slowly(rt, alloc, system, workers, words, pieces)?;
    }
    Ok(all)
}

/// Whether this is so of a text's system and its sets.
fn is_agreed_slowly<R: Threads + Sync>(
    rt: &R,
    alloc: Global,
    text: &str,
    pieces: u64,
) -> Result<bool, OutOfMemory> {
    let sets = sets_of(alloc, text)?;
    let case = system_of(alloc, text)?;
    all_agree_slowly(rt, alloc, &case, sets.as_slice(), pieces)
}

/// A ring of 150 rows, each of which copies the row before it; rows 0 and 75 get an address.
fn long_ring(alloc: Global) -> Result<System, OutOfMemory> {
    let mut made = system_of(alloc, LONG_RING)?;
    for row in 1u32..150 {
        let before = row - 1;
        made.constraints.push(Constraint::Copy {
            from: before,
            to: row,
        })?;
    }
    Ok(made)
}

#[test]
fn slow_gates(rt: HostRuntime) -> Result<(), OutOfMemory> {
    for (name, pieces) in [("a linked list", 17u64), ("a ring", 3)] {
        let all = is_agreed_slowly(&rt, rt.alloc(), worked(name), pieces)?;
        assert!(rt; all, "{name}");
    }
    Ok(())
}

// All rows get both addresses.
#[test]
fn slow_gates_on_a_long_ring(rt: HostRuntime) -> Result<(), OutOfMemory> {
    let case = long_ring(rt.alloc())?;
    let all = all_agree_slowly(&rt, rt.alloc(), &case, &[3u64; 150], 150)?;
    assert!(rt; all);
    Ok(())
}

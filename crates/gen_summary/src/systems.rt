//! From a generated program's system to its summary.
ghost use Rattle.std.specs.Prelude.{◌<◌, ◌≤◌, IfOk};
ghost use Rattle.unit_report.specs.unit_system.Of.{IsSystemOf};
ghost use Rattle.sol_model.specs.Systems.{IsValid};
ghost use Rattle.unit_report.specs.Solved.{IsShared, IsSolvedShared};
ghost use Rattle.gen_summary.specs.Summary.{IsProgramSummary};

use crate::texts::summary;
use pta_base::{Gate, OutOfMemory};
use row_share::{reduce, share};
use sol_model::System;
use std::alloc::Global;
use std::thread::Threads;
use unit_report::unit_system::UnitSystem;
use unit_report::{Solved, solve_on_rows};

/// The system with one row for all rows of a class.
fn shared(alloc: Global, system: &System) -> Result<System, OutOfMemory>
    requires { IsValid system.now }
    ensures shared { IfOk result (IsShared system.now) }
    ensures valid { IfOk result IsValid }
{
    let classes = share(alloc, system)?;
    let reduced = reduce(alloc, system, &classes)?;
    Ok(reduced.system)
}

/// The summary of the generated program of a number, whose system is lent, with the system that was solved for it.
fn summary_over<R: Threads + Sync, G: Gate + Sync>(
    rt: &R,
    alloc: Global,
    made: &UnitSystem,
    number: u32,
    workers: u32,
    gate: &G,
) -> Result<(Vec<u8>, Solved), OutOfMemory>
    requires system { IsSystemOf made.now.program made.now.space made.now.system }
    requires workers { (0 < workers) × (workers ≤ 64) }
    ensures summary { IfOk result (λ found. IsProgramSummary number made.now.space made.now.system found.0.items) }
    ensures solved { IfOk result (λ found. IsSolvedShared made.now.system found.1) }
{
    let reduced = shared(alloc, &made.system)?;
    let (rows, solved) = solve_on_rows(rt, alloc, reduced, workers, gate)?;
    let text = summary(alloc, number, &made.space, &solved.system, &rows)?;
    Ok((text, solved))
}

/// The summary of the generated program of a number, whose system was made, with the system that was solved for it by so many workers on
/// shared rows, each of whom passes the gate before each of its pieces. That system has one row for all rows of a class (`row_share`). Only
/// memory may want.
pub fn summary_of_system<R: Threads + Sync, G: Gate + Sync>(
    rt: &R,
    alloc: Global,
    made: UnitSystem,
    number: u32,
    workers: u32,
    gate: &G,
) -> Result<(Vec<u8>, Solved), OutOfMemory>
    requires system { IsSystemOf made.program made.space made.system }
    requires workers { (0 < workers) × (workers ≤ 64) }
    ensures summary { IfOk result (λ found. IsProgramSummary number made.space made.system found.0.items) }
    ensures solved { IfOk result (λ found. IsSolvedShared made.system found.1) }
{
    summary_over(rt, alloc, &made, number, workers, gate)
}

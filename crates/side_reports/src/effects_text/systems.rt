//! From a program's system to its text.
ghost use Rattle.std.specs.Prelude.{◌<◌, ◌≤◌, IfOk};
ghost use Rattle.core_tree.specs.Range.{InRange};
ghost use Rattle.core_tree.specs.Typed.{trees_in};
ghost use Rattle.unit_report.specs.unit_system.Of.{IsSystemOf};
ghost use Rattle.unit_report.specs.Solved.{IsSolvedShared};
ghost use Rattle.side_reports.specs.effects_text.Effects.{IsProgramEffects};

use crate::effects_text::lines::effects_text;
use crate::whole_rows::whole_solution;
use pta_base::{Gate, OutOfMemory};
use std::alloc::Global;
use std::thread::Threads;
use unit_report::Solved;
use unit_report::unit_system::UnitSystem;

/// The same of a system that is lent.
fn effects_over<R: Threads + Sync, G: Gate + Sync>(
    rt: &R,
    alloc: Global,
    made: &UnitSystem,
    workers: u32,
    gate: &G,
) -> Result<(Vec<u8>, Solved), OutOfMemory>
    requires range { InRange (trees_in made.now.program) }
    requires system { IsSystemOf made.now.program made.now.space made.now.system }
    requires workers { (0 < workers) × (workers ≤ 64) }
    ensures text { IfOk result (λ found. IsProgramEffects made.now.program made.now.space made.now.system found.0.items) }
    ensures solved { IfOk result (λ found. IsSolvedShared made.now.system found.1) }
{
    let (rows, solved) = whole_solution(rt, alloc, &made.system, workers, gate)?;
    let text = effects_text(alloc, &made.program, &made.space, &made.system, &rows)?;
    Ok((text, solved))
}

/// What each function of a program whose system was made may read and write, as lines, with the system that was solved for it by so many
/// workers on shared rows, each of whom passes the gate before each of its pieces. Only memory may want.
pub fn effects_of_system<R: Threads + Sync, G: Gate + Sync>(
    rt: &R,
    alloc: Global,
    made: UnitSystem,
    workers: u32,
    gate: &G,
) -> Result<(Vec<u8>, Solved), OutOfMemory>
    requires range { InRange (trees_in made.program) }
    requires system { IsSystemOf made.program made.space made.system }
    requires workers { (0 < workers) × (workers ≤ 64) }
    ensures text { IfOk result (λ found. IsProgramEffects made.program made.space made.system found.0.items) }
    ensures solved { IfOk result (λ found. IsSolvedShared made.system found.1) }
{
    effects_over(rt, alloc, &made, workers, gate)
}

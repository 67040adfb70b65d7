//! From a program's system to the text of its stops.
ghost use Rattle.std.specs.Prelude.{◌<◌, ◌≤◌, IfOk};
ghost use Rattle.core_tree.specs.Range.{InRange};
ghost use Rattle.core_tree.specs.Typed.{trees_in};
ghost use Rattle.sol_model.specs.Families.{members};
ghost use Rattle.sol_model.specs.Solutions.{IsLeast};
ghost use Rattle.sol_model.specs.Systems.{Fits};
ghost use Rattle.unit_report.specs.unit_system.Of.{IsSystemOf};
ghost use Rattle.unit_report.specs.Solved.{IsSolvedShared};
ghost use Rattle.side_reports.specs.stop_report.Text.{IsProgramStops};

use crate::stop_report::lines::stops_text;
use crate::whole_rows::whole_solution;
use pta_base::{Gate, OutOfMemory};
use sol_model::Rows;
use std::alloc::Global;
use std::thread::Threads;
use stop_places::stops;
use unit_report::unit_system::UnitSystem;
use unit_report::{Solved, strings_of};

/// The text of the stops of a program by the least solution of its system.
fn text_of(alloc: Global, made: &UnitSystem, rows: &Rows) -> Result<Vec<u8>, OutOfMemory>
    requires system { IsSystemOf made.now.program made.now.space made.now.system }
    requires range { InRange (trees_in made.now.program) }
    requires fits { Fits made.now.system rows.now }
    requires least { IsLeast made.now.system (members rows.now) }
    ensures { IfOk result (λ text. IsProgramStops made.now.program made.now.space made.now.system text.items) }
{
    let names = strings_of(alloc, made.program.names.as_slice())?;
    let list = stops(alloc, &made.program, &made.space, &made.system, rows)?;
    let text = stops_text(
        alloc,
        names.as_slice(),
        made.program.nodes.as_slice(),
        list.as_slice(),
    )?;
    Ok(text)
}

/// The text of the stops of a program whose system is lent, with the system that was solved for it.
fn stops_over<R: Threads + Sync, G: Gate + Sync>(
    rt: &R,
    alloc: Global,
    made: &UnitSystem,
    workers: u32,
    gate: &G,
) -> Result<(Vec<u8>, Solved), OutOfMemory>
    requires system { IsSystemOf made.now.program made.now.space made.now.system }
    requires range { InRange (trees_in made.now.program) }
    requires workers { (0 < workers) × (workers ≤ 64) }
    ensures printed { IfOk result (λ found. IsProgramStops made.now.program made.now.space made.now.system found.0.items) }
    ensures solved { IfOk result (λ found. IsSolvedShared made.now.system found.1) }
{
    let (rows, solved) = whole_solution(rt, alloc, &made.system, workers, gate)?;
    let text = text_of(alloc, made, &rows)?;
    Ok((text, solved))
}

/// The text of the stops of a program whose system was made, with the system that was solved for it by so many workers on shared rows, each
/// of whom passes the gate before each of its pieces. Only memory may want; all of it is taken before any of the text is written.
pub fn stops_of_system<R: Threads + Sync, G: Gate + Sync>(
    rt: &R,
    alloc: Global,
    made: UnitSystem,
    workers: u32,
    gate: &G,
) -> Result<(Vec<u8>, Solved), OutOfMemory>
    requires system { IsSystemOf made.program made.space made.system }
    requires range { InRange (trees_in made.program) }
    requires workers { (0 < workers) × (workers ≤ 64) }
    ensures printed { IfOk result (λ found. IsProgramStops made.program made.space made.system found.0.items) }
    ensures solved { IfOk result (λ found. IsSolvedShared made.system found.1) }
{
    stops_over(rt, alloc, &made, workers, gate)
}

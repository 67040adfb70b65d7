//! From units that can be linked to their report.

ghost use Rattle.std.specs.Prelude.{◌≡◌, ◌<◌, ◌≤◌, IfErr, IfOk, length};
ghost use Rattle.sol_model.specs.declared.system.System.{System};
ghost use Rattle.sol_model.specs.Families.{members};
ghost use Rattle.sol_model.specs.Solutions.{IsLeast};
ghost use Rattle.sol_model.specs.Systems.{IsValid, Fits, location_count};
ghost use Rattle.link_model.specs.filled_units.Filled.{AreFilled};
ghost use Rattle.unit_link.specs.Needs.{AreLinkable};
ghost use Rattle.unit_report.specs.unit_system.Of.{IsSystemOf};
ghost use Rattle.unit_report.specs.unit_system.Faults.{IsFaultOf};
ghost use Rattle.unit_report.specs.Reported.{IsProgramReport, IsReportAs, IsUnitReport};
ghost use Rattle.unit_report.specs.Solved.{IsShared, IsSolvedShared};

use crate::names::strings_of;
use crate::report_json::json_report;
use crate::report_text::report;
use crate::sharing::shared;
use crate::solving::{Solved, solve_on_rows};
use crate::unit_system::{UnitFault, UnitSystem, linked_system};
use core_tree::{Program, Unit};
use obj_space::Space;
use pta_base::{Gate, OutOfMemory, Text};
use sol_model::{Rows, System};
use std::alloc::Global;
use std::thread::Threads;

/// The report of rows, as JSON or as lines. The one error is want of memory.
fn report_as(
    alloc: Global,
    json: bool,
    space: &Space,
    names: &[String],
    system: &System,
    rows: &Rows,
) -> Result<Vec<u8>, OutOfMemory>
    requires valid { IsValid system.now }
    requires fits { Fits system.now rows.now }
    requires count { length space.now ≡ location_count system.now }
    ensures { IfOk result (λ text. IsReportAs json space.now names.now system.now (members rows.now) text.items) }
{
    match json {
        true => json_report(alloc, space, names, system, rows),
        false => report(alloc, space, names, system, rows),
    }
}

/// The report of a program by the least solution of the system with one row for each class of its system's rows.
fn program_text(
    alloc: Global,
    json: bool,
    program: &Program,
    space: &Space,
    system: &System,
    rows: &Rows,
) -> Result<Vec<u8>, OutOfMemory>
    requires valid { IsValid system.now }
    requires fits { Fits system.now rows.now }
    requires count { length space.now ≡ location_count system.now }
    ensures { IfOk result (λ text. (made : System) → IsSystemOf program.now space.now made → IsShared made system.now →
        IsLeast system.now (members rows.now) → IsProgramReport json program.now space.now made text.items) }
{
    let names = strings_of(alloc, program.names.as_slice())?;
    let text = report_as(alloc, json, space, names.as_slice(), system, rows)?;
    Ok(text)
}

/// The report of a program by its system, with the system that was solved for it by so many workers on shared rows.
fn report_by<R: Threads + Sync, G: Gate + Sync>(
    rt: &R,
    alloc: Global,
    json: bool,
    program: &Program,
    space: &Space,
    system: System,
    workers: u32,
    gate: &G,
) -> Result<(Vec<u8>, Solved), OutOfMemory>
    requires system { IsSystemOf program.now space.now system }
    requires workers { (0 < workers) × (workers ≤ 64) }
    ensures reported { IfOk result (λ found. IsProgramReport json program.now space.now system found.0.items) }
    ensures solved { IfOk result (λ found. IsSolvedShared system found.1) }
{
    let reduced = shared(alloc, system)?;
    let (rows, solved) = solve_on_rows(rt, alloc, reduced, workers, gate)?;
    let text = program_text(alloc, json, program, space, &solved.system, &rows)?;
    Ok((text, solved))
}

/// The report of a program whose system was made, as JSON or as lines, with the system that was solved for it by so many workers on shared
/// rows, each of whom passes the gate before each of its pieces. That system has one row for all rows of a class (`row_share`). Only
/// memory may want.
pub fn report_of_system<R: Threads + Sync, G: Gate + Sync>(
    rt: &R,
    alloc: Global,
    made: UnitSystem,
    json: bool,
    workers: u32,
    gate: &G,
) -> Result<(Vec<u8>, Solved), OutOfMemory>
    requires system { IsSystemOf made.program made.space made.system }
    requires workers { (0 < workers) × (workers ≤ 64) }
    ensures reported { IfOk result (λ found. IsProgramReport json made.program made.space made.system found.0.items) }
    ensures solved { IfOk result (λ found. IsSolvedShared made.system found.1) }
{
    let UnitSystem {
        program,
        space,
        system,
    } = made;
    report_by(rt, alloc, json, &program, &space, system, workers, gate)
}

/// The report of the program that valid units of distinct names are, which initialise only objects that they define, with the system that
/// was solved for it by so many workers; or the first fault of linking the units, or the limit that their program passes first. The text
/// stands whole in memory before any of it is written. The program is entered at the functions of these names, or where there are none it
/// begins at main.
pub fn report_of_units<R: Threads + Sync, G: Gate + Sync>(
    rt: &R,
    alloc: Global,
    units: Vec<Unit>,
    entries: &[Text],
    workers: u32,
    gate: &G,
) -> Result<(Vec<u8>, Solved), UnitFault>
    requires linkable { AreLinkable units.items }
    requires filled { AreFilled units.items }
    requires workers { (0 < workers) × (workers ≤ 64) }
    ensures reported { IfOk result (λ found. (system : System)
        × IsUnitReport entries.now units.items system found.0.items × IsSolvedShared system found.1) }
    ensures refused { IfErr result (IsFaultOf entries.now units.items) }
{
    let made = linked_system(alloc, units, entries)?;
    let found = report_of_system(rt, alloc, made, false, workers, gate)?;
    Ok(found)
}

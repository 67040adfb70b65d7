// From a program to the text of its run.
ghost use Rattle.std.specs.Prelude.{◌≡◌, ◌<◌, ◌≤◌, ◌^◌, Ok, if◌then◌else◌, length, IfErr, IfOk};
ghost use Rattle.core_tree.specs.Range.{InRange};
ghost use Rattle.core_tree.specs.Typed.{trees_in};
ghost use Rattle.sol_model.specs.Systems.{IsValid};
ghost use Rattle.ref_state.specs.run_words.Words.{IsReading, IsRefusal};
ghost use Rattle.unit_report.specs.Solved.{IsSolvedShared};
ghost use Rattle.unit_report.specs.unit_system.Of.{IsSystemOf};
ghost use Rattle.report_cli.specs.Told.{with_words};
ghost use Rattle.report_cli.specs.Scripts.{named};
ghost use Rattle.report_cli.specs.Printed.{IsRun};
ghost use Rattle.report_cli.specs.Faults.{AreFaultOfWords, IsFaultOfSide, IsWordsRefusal};

use crate::form::Printed;
use crate::side::{MOST, SideText};
use pta_base::{Gate, OutOfMemory};
use ref_state::run_words::words::{WordsFault, words_in};
use row_share::{reduce, share};
use run_text::run_text;
use sol_model::System;
use std::alloc::{AllocError, Global};
use std::thread::Threads;
use text_units::alone::{malformed, too_large};
use text_units::fault::UnitsFault;
use text_units::places::{column_of, line_of, place_text};
use unit_report::unit_system::UnitSystem;
use unit_report::{Solved, solve_on_rows};

/// The refusal for the fault of the words of a run.
fn words_refusal(
    alloc: Global,
    words: SideText<'_>,
    fault: WordsFault,
) -> Result<UnitsFault, AllocError>
    requires short { length words.text.now ≤ 2 ^ 24 }
    requires refusal { IsRefusal words.text.now fault }
    ensures { IfOk result (IsWordsRefusal (named words.entry) fault) }
{
    match fault {
        WordsFault::Malformed(at) => {
            let at = at as u32;
            malformed(place_text(
                alloc,
                words.name,
                line_of(words.text, at),
                column_of(words.text, at),
            )?)
        }
        WordsFault::OutOfMemory => Ok(UnitsFault::Memory),
    }
}

/// The words of a run, or the fault that refuses their text: it is over the limit, or isn't numbers and white space.
fn numbers_of(alloc: Global, words: SideText<'_>) -> Result<Vec<u64>, UnitsFault>
    ensures short { IfOk result (λ numbers. length words.entry.text.now ≤ 2 ^ 24) }
    ensures reading { IfOk result (λ numbers. IsReading 0 words.entry.text.now (Ok numbers.items)) }
    ensures refused { IfErr result (AreFaultOfWords (named words.entry)) }
{
    if words.text.len() > MOST {
        return Err(too_large(alloc, words.name)?);
    }
    match words_in(alloc, words.text) {
        Ok(numbers) => Ok(numbers),
        Err(fault) => Err(words_refusal(alloc, words, fault)?),
    }
}

/// A program's system solved by so many workers on shared rows, each of whom passes the gate before each of its pieces. It has one row for
/// all rows of a class (`row_share`).
fn solved_on_rows<R: Threads + Sync, G: Gate + Sync>(
    rt: &R,
    alloc: Global,
    system: System,
    workers: u32,
    gate: &G,
) -> Result<Solved, OutOfMemory>
    requires valid { IsValid system }
    requires workers { (0 < workers) × (workers ≤ 64) }
    ensures { IfOk result (IsSolvedShared system) }
{
    let classes = share(alloc, &system)?;
    let reduced = reduce(alloc, &system, &classes)?;
    let (_, solved) = solve_on_rows(rt, alloc, reduced.system, workers, gate)?;
    Ok(solved)
}

/// The status of a run: 11 where a step stopped, and else 0.
fn status_of(stopped: bool) -> u8
    ensures { result ≡ (if stopped then 11 else 0) }
{
    if stopped { 11 } else { 0 }
}

/// The text of a program's run of at most so many steps, which takes the words of a text, with the system that was solved for the program,
/// or the fault that refuses the words.
pub(crate) fn ran<R: Threads + Sync, G: Gate + Sync>(
    rt: &R,
    alloc: Global,
    made: UnitSystem,
    steps: u32,
    words: SideText<'_>,
    workers: u32,
    gate: &G,
) -> Result<Printed, UnitsFault>
    requires range { InRange (trees_in made.program) }
    requires system { IsSystemOf made.program made.space made.system }
    requires workers { (0 < workers) × (workers ≤ 64) }
    ensures printed { IfOk result (λ found. IsRun steps words.entry.text.now made.program made.system found.text.items found.status) }
    ensures solved { IfOk result (λ found. IsSolvedShared made.system found.solved) }
    ensures refused { IfErr result (IsFaultOfSide made.program made.space made.system (with_words steps (named words.entry))) }
{
    let numbers = match numbers_of(alloc, words) {
        Ok(numbers) => numbers,
        Err(fault) => return Err(fault),
    };
    let UnitSystem {
        program,
        system,
        ..
    } = made;
    let solved = solved_on_rows(rt, alloc, system, workers, gate)?;
    let Ok(told) = run_text(alloc, &program, numbers.as_slice(), steps) else {
        return Err(UnitsFault::Memory);
    };
    Ok(Printed {
        text: told.text,
        status: status_of(told.stopped),
        solved,
    })
}

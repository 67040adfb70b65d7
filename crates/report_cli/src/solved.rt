// From the texts of units to what is printed of their program, or to their first refusal.
ghost use Rattle.std.specs.Prelude.{◌≡◌, ℕ, ◌<◌, ◌≤◌, ◌^◌, List, length, map, zip, IfOk, IfErr};
ghost use Rattle.command_line.specs.Distinct.{AreDistinct};
ghost use Rattle.link_model.specs.filled_units.Filled.{AreFilled};
ghost use Rattle.unit_link.specs.Needs.{AreLinkable};
ghost use Rattle.core_tree.specs.declared.node.Program.{Program};
ghost use Rattle.core_tree.specs.Range.{InRange};
ghost use Rattle.core_tree.specs.Typed.{trees_in};
ghost use Rattle.sol_model.specs.declared.system.System.{System};
ghost use Rattle.obj_space.specs.Space.{DistinctNames};
ghost use Rattle.linked_laws.specs.location_laws.named_laws.Units.{AreNamedUnits};
ghost use Rattle.unit_report.specs.unit_system.Of.{IsSystemOf};
ghost use Rattle.unit_report.specs.Solved.{IsSolvedShared};
ghost use Rattle.text_units.specs.Answers.{names_of, NamedText};
ghost use Rattle.report_cli.specs.Words.{AreUnitNames};
ghost use Rattle.text_units.specs.Lowered.{AreRightTexts};
ghost use Rattle.report_cli.specs.Printed.{AreAnswersTo, IsInForm, IsPrinted};
ghost use Rattle.report_cli.specs.Outcome.{Denotes};
ghost use Rattle.report_cli.specs.Told.{with_questions};
ghost use Rattle.report_cli.specs.Scripts.{named, named_side, told_with};
ghost use Rattle.report_cli.specs.Faults.{IsFaultOf, IsFaultOfSide, IsFaultOfTold};

use crate::form::{Form, Printed};
use crate::refusals::{answers_refusal, system_refusal};
use crate::running::ran;
use crate::side::{Asked, MOST, Side, SideText};
use core_tree::Unit;
use gen_summary::summary_of_system;
use pta_base::{Gate, Listing, OutOfMemory, Text};
use side_reports::effects_text::effects_of_system;
use side_reports::stop_report::stops_of_system;
use std::alloc::Global;
use std::sync::Wait;
use std::thread::Threads;
use text_units::alone::too_large;
use text_units::fault::UnitsFault;
use text_units::lowered::lower_each;
use unit_report::unit_answers::answers_of_system;
use unit_report::unit_system::{UnitSystem, linked_system};
use unit_report::{Solved, report_of_system};

/// The program that the texts of core units denote where those entries are named, with its locations, no two of which have one name, and
/// its system, or the fault that refuses them.
fn linked(
    alloc: Global,
    names: &[&str],
    units: Vec<Unit>,
    entries: &[Text],
) -> Result<UnitSystem, UnitsFault>
    requires linkable { AreLinkable units.items }
    requires filled { AreFilled units.items }
    requires named { AreNamedUnits units.items }
    ensures linked { (texts : List NamedText) → AreRightTexts 0 texts units.items →
        IfOk result (λ made. Denotes entries.now texts made.program × IsSystemOf made.program made.space made.system) }
    ensures refused { (texts : List NamedText) → names_of names.now ≡ map (λ text. text.0) texts → AreRightTexts 0 texts units.items →
        IfErr result (IsFaultOf entries.now texts) }
    ensures distinct { IfOk result (λ made. DistinctNames made.space) }
    ensures range { IfOk result (λ made. InRange (trees_in made.program)) }
{
    match linked_system(alloc, units, entries) {
        Ok(made) => Ok(made),
        Err(fault) => Err(system_refusal(alloc, names, fault)?),
    }
}

/// The answers to a script on a program, by a desk or not, with the system that was solved for them, or the fault that refuses the script.
fn answers_to<R: Threads + Wait + Sync, G: Gate + Sync>(
    rt: &R,
    alloc: Global,
    made: UnitSystem,
    script: SideText<'_>,
    desk: bool,
    workers: u32,
    gate: &G,
) -> Result<Printed, UnitsFault>
    requires system { IsSystemOf made.program made.space made.system }
    requires distinct { DistinctNames made.space }
    requires workers { (0 < workers) × (workers ≤ 64) }
    ensures printed { IfOk result (λ found.
        AreAnswersTo script.entry.text.now made.program made.system found.text.items × (found.status ≡ 0)) }
    ensures solved { IfOk result (λ found. IsSolvedShared made.system found.solved) }
    ensures refused { IfErr result (IsFaultOfSide made.program made.space made.system (with_questions (named script.entry))) }
{
    if script.text.len() > MOST {
        return Err(too_large(alloc, script.name)?);
    }
    match answers_of_system(rt, alloc, made, script.text, desk, workers, gate) {
        Ok((text, solved)) => Ok(Printed {
            text,
            status: 0,
            solved,
        }),
        Err(fault) => Err(answers_refusal(alloc, fault)?),
    }
}

/// The report or the summary of a program, or what its functions touch, or where it may stop for a type, with the system that was solved
/// for it.
fn text_in_form<R: Threads + Sync, G: Gate + Sync>(
    rt: &R,
    alloc: Global,
    made: UnitSystem,
    form: Form,
    workers: u32,
    gate: &G,
) -> Result<(Vec<u8>, Solved), OutOfMemory>
    requires system { IsSystemOf made.program made.space made.system }
    requires range { InRange (trees_in made.program) }
    requires workers { (0 < workers) × (workers ≤ 64) }
    ensures printed { IfOk result (λ found. IsInForm form made.program made.system found.0.items) }
    ensures solved { IfOk result (λ found. IsSolvedShared made.system found.1) }
{
    match form {
        Form::Report(json) => report_of_system(rt, alloc, made, json, workers, gate),
        Form::Summary(number) => summary_of_system(rt, alloc, made, number, workers, gate),
        Form::Effects => effects_of_system(rt, alloc, made, workers, gate),
        Form::Stops => stops_of_system(rt, alloc, made, workers, gate),
    }
}

/// The core units that texts are, by so many workers at the most, or the fault that refuses the texts.
fn lower_texts<R: Threads + Sync, G: Gate + Sync>(
    rt: &R,
    alloc: Global,
    names: &[&str],
    texts: &[Listing<u8>],
    workers: u32,
    gate: &G,
) -> Result<Vec<Unit>, UnitsFault>
    requires count { length texts.now ≡ length names.now }
    requires few { length names.now ≤ 2 ^ 8 }
    ensures right { IfOk result (λ units. AreRightTexts 0 (zip (names_of names.now) texts.now) units.items) }
    ensures refused { (entries : List (List ℕ)) → IfErr result (IsFaultOf entries (zip (names_of names.now) texts.now)) }
{
    lower_each(rt, alloc, names, texts, workers, gate)
}

/// What is printed of the program of units of distinct names, its report, as JSON or as lines, its summary, what its functions touch, where
/// it may stop for a type, the answers to a script or the text of a run, with the system that was solved for it, or the fault that refuses
/// the units or what is read beside them.
pub(crate) fn text_of_units<R: Threads + Wait + Sync, G: Gate + Sync>(
    rt: &R,
    alloc: Global,
    names: &[&str],
    texts: &[Listing<u8>],
    asked: Asked<'_>,
    workers: u32,
    gate: &G,
) -> Result<Printed, UnitsFault>
    requires few { length names.now ≤ 2 ^ 8 }
    requires distinct { AreDistinct (names_of names.now) }
    requires bytes { AreUnitNames (names_of names.now) }
    requires count { length texts.now ≡ length names.now }
    requires workers { (0 < workers) × (workers ≤ 64) }
    ensures printed { IfOk result (λ made. (program : Program) × (system : System)
        × Denotes asked.entry.entries.now (zip (names_of names.now) texts.now) program
        × IsPrinted asked.entry.form (named_side asked.entry.side) program system made.text.items made.status
        × IsSolvedShared system made.solved) }
    ensures refused { IfErr result (IsFaultOfTold (told_with asked.entry.entries.now (zip (names_of names.now) texts.now)
        (named_side asked.entry.side) asked.entry.form)) }
{
    let units = lower_texts(rt, alloc, names, texts, workers, gate)?;
    let made = match linked(alloc, names, units, asked.entries) {
        Ok(made) => made,
        Err(fault) => return Err(fault),
    };
    match asked.side {
        Side::Nothing => {
            let (text, solved) = text_in_form(rt, alloc, made, asked.form, workers, gate)?;
            Ok(Printed {
                text,
                status: 0,
                solved,
            })
        }
        Side::Questions(script, desk) => {
            answers_to(rt, alloc, made, script, desk, workers, gate)
        }
        Side::Words(steps, words) => ran(rt, alloc, made, steps, words, workers, gate),
    }
}

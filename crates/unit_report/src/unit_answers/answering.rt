//! From a script of questions on a program to its answers.

ghost use Rattle.std.specs.Prelude.{◌≡◌, ℕ, List, ◌<◌, ◌≤◌, ◌^◌, All, IfErr, IfOk, length};
ghost use Rattle.sol_model.specs.Families.{Family, Has};
ghost use Rattle.sol_model.specs.Solutions.{IsLeast};
ghost use Rattle.sol_model.specs.Systems.{IsValid};
ghost use Rattle.obj_space.specs.Space.{DistinctNames};
ghost use Rattle.set_rows.specs.Views.{known};
ghost use Rattle.set_rows.specs.Calls.{system_of, view, IsOf};
ghost use Rattle.alias_query.specs.declared.answers.Answer.{Answer as AnswerSpec};
ghost use Rattle.alias_query.specs.Answers.{IsKnown};
ghost use Rattle.alias_query.specs.Asked.{AreAsked};
ghost use Rattle.alias_query.specs.Script.{lines_of};
ghost use Rattle.alias_query.specs.ask_rounds.Said.{AreAnswers, answers_text};
ghost use Rattle.alias_query.specs.ask_rounds.Solves.{HasSolved};
ghost use Rattle.unit_report.specs.unit_system.Of.{IsSystemOf};
ghost use Rattle.unit_report.specs.Solved.{IsShared, IsSolved, IsSolvedShared};
ghost use Rattle.unit_report.specs.unit_answers.Answered.{IsProgramAnswers, setting_of};
ghost use Rattle.unit_report.specs.unit_answers.Fault.{IsAnswersFault};

use crate::Solved;
use crate::sharing::shared;
use crate::unit_answers::fault::{AnswersFault, fault_of};
use crate::unit_system::UnitSystem;
use alias_query::ask_rounds::{answers_text, solve_and_ask};
use alias_query::{Answer, Question, questions};
use core_tree::Program;
use obj_space::Space;
use pta_base::{Gate, OutOfMemory};
use question_desk::desk_rounds::solve_and_ask_by_desk;
use set_rows::{RowSeat, RowTable};
use sol_model::System;
use std::alloc::Global;
use std::sync::Wait;
use std::thread::Threads;

/// The questions of a script, and whether they go over a desk.
#[derive(Clone, Copy)]
struct Asked<'a> {
    questions: &'a [Question],
    desk: bool,
}

/// Solves and answers, with an asker beside the workers, or with two askers and a desk.
fn solved_and_asked<R: Threads + Wait + Sync, G: Gate + Sync>(
    rt: &R,
    alloc: Global,
    system: &System,
    table: &RowTable,
    seat: RowSeat,
    asked: Asked<'_>,
    workers: u32,
    gate: &G,
) -> Result<(RowSeat, Vec<Answer>), OutOfMemory>
    requires own { IsOf table.now seat }
    requires valid { IsValid system.now }
    requires system { system_of table.now ≡ system.now }
    requires fresh { (row location : ℕ) → Has (known (view seat)) row location → ⊥ }
    requires known { All (IsKnown system.now) asked.questions.now }
    requires workers { (0 < workers) × (workers ≤ 64) }
    ensures own { IfOk result (λ made. IsOf table.now made.0) }
    ensures solved { IfOk result (λ made. HasSolved system.now (view seat) (view made.0)) }
    ensures answers { IfOk result
        (λ made. (F : Family) → IsLeast system.now F → AreAnswers system.now F asked.entry.questions.now made.1.items) }
{
    if asked.desk {
        return solve_and_ask_by_desk(
            rt,
            alloc,
            system,
            table,
            seat,
            asked.questions,
            workers,
            gate,
        );
    }
    solve_and_ask(
        rt,
        alloc,
        system,
        table,
        seat,
        asked.questions,
        workers,
        gate,
    )
}

/// Solves a system by workers on shared rows, with an asker beside them or with two askers and a desk, and answers questions whose numbers
/// are in range.
fn answer_on_rows<R: Threads + Wait + Sync, G: Gate + Sync>(
    rt: &R,
    alloc: Global,
    system: System,
    asked: Asked<'_>,
    workers: u32,
    gate: &G,
) -> Result<(Vec<Answer>, Solved), OutOfMemory>
    requires valid { IsValid system }
    requires known { All (IsKnown system) asked.questions.now }
    requires workers { (0 < workers) × (workers ≤ 64) }
    ensures answers { IfOk result
        (λ found. (F : Family) → IsLeast system F → AreAnswers system F asked.entry.questions.now found.0.items) }
    ensures solved { IfOk result (λ found. IsSolved system found.1) }
{
    let (table, seat) = RowTable::new(alloc, &system)?;
    let (seat, answers) = solved_and_asked(rt, alloc, &system, &table, seat, asked, workers, gate)?;
    Ok((
        answers,
        Solved {
            system,
            table,
            seat,
        },
    ))
}

/// The text of the answers to questions whose numbers are in range, with what was solved for them.
fn told_on_rows<R: Threads + Wait + Sync, G: Gate + Sync>(
    rt: &R,
    alloc: Global,
    system: System,
    asked: Asked<'_>,
    workers: u32,
    gate: &G,
) -> Result<(Vec<u8>, Solved), OutOfMemory>
    requires valid { IsValid system }
    requires known { All (IsKnown system) asked.questions.now }
    requires workers { (0 < workers) × (workers ≤ 64) }
    ensures told { IfOk result (λ found. (answers : List AnswerSpec)
        × ((F : Family) → IsLeast system F → AreAnswers system F asked.entry.questions.now answers)
        × (found.0.items ≡ answers_text answers)) }
    ensures solved { IfOk result (λ found. IsSolved system found.1) }
{
    let (answers, solved) = answer_on_rows(rt, alloc, system, asked, workers, gate)?;
    let text = answers_text(alloc, answers.as_slice())?;
    Ok((text, solved))
}

/// The questions of a script on a program by its system, and the system with one row for each class of its rows; or the first line at
/// fault.
fn asked_by(
    alloc: Global,
    program: &Program,
    space: &Space,
    system: System,
    script: &[u8],
) -> Result<(Vec<Question>, System), AnswersFault>
    requires system { IsSystemOf program.now space.now system }
    requires distinct { DistinctNames space.now }
    requires script { length script.now ≤ 2 ^ 24 }
    ensures asked { IfOk result (λ found. AreAsked (setting_of program.now space.now system) (lines_of script.now) found.0.items) }
    ensures known { IfOk result (λ found. All (IsKnown found.1) found.0.items) }
    ensures shared { IfOk result (λ found. IsShared system found.1) }
    ensures valid { IfOk result (λ found. IsValid found.1) }
    ensures refused { IfErr result (IsAnswersFault program.now space.now system script.now) }
{
    let asked = match questions(alloc, script, space, &system, program.names.as_slice()) {
        Ok(asked) => asked,
        Err(fault) => return Err(fault_of(fault)),
    };
    let reduced = shared(alloc, system)?;
    Ok((asked, reduced))
}

/// The same of a program whose system was made.
fn asked_of(
    alloc: Global,
    made: UnitSystem,
    script: &[u8],
) -> Result<(Vec<Question>, System), AnswersFault>
    requires system { IsSystemOf made.program made.space made.system }
    requires distinct { DistinctNames made.space }
    requires script { length script.now ≤ 2 ^ 24 }
    ensures asked { IfOk result
        (λ found. AreAsked (setting_of made.program made.space made.system) (lines_of script.now) found.0.items) }
    ensures known { IfOk result (λ found. All (IsKnown found.1) found.0.items) }
    ensures shared { IfOk result (λ found. IsShared made.system found.1) }
    ensures valid { IfOk result (λ found. IsValid found.1) }
    ensures refused { IfErr result (IsAnswersFault made.program made.space made.system script.now) }
{
    let UnitSystem {
        program,
        space,
        system,
    } = made;
    asked_by(alloc, &program, &space, system, script)
}

/// The answers to a script of at most 2^24 bytes on a program whose system was made, no two of whose locations have one name, with the
/// system that was solved for them by so many workers on shared rows, each of whom passes the gate before each of its pieces. That system
/// has one row for all rows of a class (`row_share`), and the same numbers of locations, calls and functions. An asker
/// beside them tries each question, or with `desk` two askers send the questions to a desk whose thread tries them; what is open then is
/// asked when the system is solved. At Err it is the first line that isn't in the
/// grammar or names nothing of the right sort. The text stands whole in memory before any of it is written.
pub fn answers_of_system<R: Threads + Wait + Sync, G: Gate + Sync>(
    rt: &R,
    alloc: Global,
    made: UnitSystem,
    script: &[u8],
    desk: bool,
    workers: u32,
    gate: &G,
) -> Result<(Vec<u8>, Solved), AnswersFault>
    requires system { IsSystemOf made.program made.space made.system }
    requires distinct { DistinctNames made.space }
    requires script { length script.now ≤ 2 ^ 24 }
    requires workers { (0 < workers) × (workers ≤ 64) }
    ensures answered { IfOk result (λ found. IsProgramAnswers made.program made.space made.system script.now found.0.items) }
    ensures solved { IfOk result (λ found. IsSolvedShared made.system found.1) }
    ensures refused { IfErr result (IsAnswersFault made.program made.space made.system script.now) }
{
    let (list, reduced) = asked_of(alloc, made, script)?;
    let asked = Asked {
        questions: list.as_slice(),
        desk,
    };
    let found = told_on_rows(rt, alloc, reduced, asked, workers, gate)?;
    Ok(found)
}

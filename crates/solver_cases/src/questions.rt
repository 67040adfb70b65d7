//! A pointer's row: asked on a fresh table, when it is solved, by a second seat, in asks that are settled, and over a desk by two
//! askers while it is solved.
ghost use Rattle.std.specs.Prelude.{◌<◌, length};
ghost use Rattle.sol_model.specs.Systems.{IsValid};

use crate::gates::{Both, Open};
use crate::reading::system_of;
use crate::systems::ONE_POINTER;
use alias_query::{Answer, Queries, Question};
use call_graph::system_check::is_valid;
use pta_base::{Gate, OutOfMemory};
use question_desk::desk_rounds::solve_and_ask_by_desk;
use question_desk::{Ask, settle};
use set_rows::RowTable;
use sol_model::System;
use std::alloc::Global;
use std::sync::Wait;
use std::thread::Threads;
use work_rounds::solve;

/// What is answered to: whether row 1 has location 0 while nothing is known; the same, and whether it has location 1, once it is solved;
/// and the same two by a second seat, which was handed what the first has seen, and waits until the rows are closed before the last.
/// Asks of the same two are settled then.
fn answers<R: Threads + Wait + Sync>(
    rt: &R,
    alloc: Global,
    system: &System,
) -> Result<([Answer; 5], bool), OutOfMemory>
    requires valid { IsValid system.now }
    requires rows { 1 < system.now.rows }
    requires locations { 1 < length system.now.locations }
{
    let (table, mut seat) = RowTable::new(alloc, system)?;
    let queries = Queries::new(&table, system);
    let mut other = table.split(&mut seat);
    let before = queries.points(&mut other, 1, 0);
    solve(rt, alloc, system, &table, &mut seat, 1, &Open)?;
    let first = queries.points(&mut seat, 1, 0);
    let second = queries.points(&mut seat, 1, 1);
    queries.hand_on(&mut seat, &mut other);
    let third = queries.points(&mut other, 1, 0);
    queries.wait_shut(rt, &mut other);
    let last = queries.points(&mut other, 1, 1);
    let asks = [
        Ask {
            sender: 0,
            number: 0,
            question: Question::Points(1, 0),
        },
        Ask {
            sender: 1,
            number: 0,
            question: Question::Points(1, 1),
        },
    ];
    let settled = settle(alloc, &queries, &mut seat, &asks)?;
    let are_settled = settled.as_slice() == [true, false].as_slice();
    Ok(([before, first, second, third, last], are_settled))
}

/// Solves while three questions of each asker go over the desk: whether the answers are those wanted.
fn answers_well<R: Threads + Wait + Sync, G: Gate + Sync>(
    rt: &R,
    alloc: Global,
    system: &System,
    gate: &G,
) -> Result<bool, OutOfMemory>
    requires valid { IsValid system.now }
    requires rows { 1 < system.now.rows }
    requires locations { 1 < length system.now.locations }
{
    let (table, seat) = RowTable::new(alloc, system)?;
    let script = [
        Question::Points(1, 0),
        Question::Points(1, 1),
        Question::Alias(1, 1),
        Question::Alias(0, 1),
        Question::Points(0, 0),
        Question::Points(1, 0),
    ];
    let (_seat, answers) = solve_and_ask_by_desk(
        rt, alloc, system, &table, seat, &script, 2, gate,
    )?;
    let wanted = [
        Answer::Yes,
        Answer::No,
        Answer::Yes,
        Answer::No,
        Answer::No,
        Answer::Yes,
    ];
    Ok(answers.as_slice() == wanted.as_slice())
}

#[test]
fn one_pointer_is_asked(rt: HostRuntime) -> Result<(), OutOfMemory> {
    let case = system_of(rt.alloc(), ONE_POINTER)?;
    assert!(rt; is_valid(&case) && case.rows == 2 && case.locations.len() == 2);
    let (given, are_settled) = answers(&rt, rt.alloc(), &case)?;
    let wanted = [
        Answer::NotYet,
        Answer::Yes,
        Answer::No,
        Answer::Yes,
        Answer::No,
    ];
    assert!(rt; given == wanted);
    assert!(rt; are_settled);
    Ok(())
}

// One thread that sends for both askers waits at the gate in vain.
#[test]
fn two_askers_at_once(rt: HostRuntime) -> Result<(), OutOfMemory> {
    let case = system_of(rt.alloc(), ONE_POINTER)?;
    assert!(rt; is_valid(&case) && case.rows == 2 && case.locations.len() == 2);
    let gate = Both::new(400);
    assert!(rt; answers_well(&rt, rt.alloc(), &case, &gate)?);
    assert!(rt; gate.have_met());
    Ok(())
}

//! Solving with two askers and a desk beside the workers.
ghost use Rattle.std.specs.Prelude.{◌≡◌, ℕ, ◌<◌, ◌≤◌, [], All, IfOk, OnOk, length, true};
ghost use Rattle.std.specs.Thread.{IsSync};
ghost use Rattle.sol_model.specs.Families.{Family, Has};
ghost use Rattle.sol_model.specs.Solutions.{IsLeast};
ghost use Rattle.sol_model.specs.Systems.{IsValid};
ghost use Rattle.set_rows.specs.Views.{known};
ghost use Rattle.set_rows.specs.Calls.{system_of, view, IsOf};
ghost use Rattle.alias_query.specs.Answers.{IsKnown};
ghost use Rattle.alias_query.specs.ask_rounds.Said.{AreAnswers};
ghost use Rattle.alias_query.specs.ask_rounds.Solves.{HasSolved};
ghost use Rattle.alias_query.specs.ask_rounds.Tries.{AreHeld, HasAsked, NoneOpen};
ghost use Rattle.question_desk.specs.Calls.{sent, IsSenderOf, IsTakerOf};

use crate::desk_rounds::asking::{take_all, try_each};
use crate::desk_rounds::sending::{Line, send_all};
use crate::{Desk, Sender, Taker};
use alias_query::{Answer, AskSeat, Queries, Question};
use pta_base::{Gate, OutOfMemory};
use set_rows::{RowSeat, RowTable};
use sol_model::System;
use std::alloc::Global;
use std::sync::Wait;
use std::sync::atomic::AtomicU64;
use std::thread::{Threads, join};
use work_rounds::solve;

/// The room of the desk.
const ROOM: usize = 64;

/// What is solved and asked, and by whom.
#[derive(Clone, Copy)]
struct Ground<'a, G> {
    system: &'a System,
    table: &'a RowTable,
    questions: &'a [Question],
    workers: u32,
    gate: &'a G,
}

/// Solves with a seat of its own.
fn solved<R: Threads + Sync, G: Gate + Sync>(
    rt: &R,
    alloc: Global,
    ground: &Ground<G>,
    seat: RowSeat,
) -> (RowSeat, Result<(), OutOfMemory>)
    requires own { IsOf ground.now.table.now seat }
    requires valid { IsValid ground.now.system.now }
    requires system { system_of ground.now.table.now ≡ ground.now.system.now }
    requires fresh { (row location : ℕ) → Has (known (view seat)) row location → ⊥ }
    requires workers { (0 < ground.now.workers) × (ground.now.workers ≤ 64) }
    ensures own { IsOf ground.now.table.now result.0 }
    ensures solved { OnOk result.1 (HasSolved ground.now.system.now (view seat) (view result.0)) }
{
    let mut seat = seat;
    let solved = solve(
        rt,
        alloc,
        ground.system,
        ground.table,
        &mut seat,
        ground.workers,
        ground.gate,
    );
    (seat, solved)
}

/// Takes what is sent, and tries it with a seat of its own.
fn taken<R: Wait, G>(
    rt: &R,
    ground: &Ground<G>,
    desk: &Desk,
    taker: Taker,
    seat: AskSeat,
    answers: Vec<Answer>,
    ended: &AtomicU64,
) -> (AskSeat, Vec<Answer>)
    requires taker { IsTakerOf desk.now taker }
    requires own { IsOf ground.now.table.now seat }
    requires valid { IsValid ground.now.system.now }
    requires system { system_of ground.now.table.now ≡ ground.now.system.now }
    requires known { All (IsKnown ground.now.system.now) ground.now.questions.now }
    requires held { AreHeld ground.now.system.now ground.now.questions.now answers.items }
    ensures own { IsOf ground.now.table.now result.0 }
    ensures asked { HasAsked (view seat) (view result.0) }
    ensures held { AreHeld ground.now.system.now ground.now.questions.now result.1.items }
{
    let mut taker = taker;
    let mut seat = seat;
    let mut answers = answers;
    let queries = Queries::new(ground.table, ground.system);
    take_all(
        rt,
        desk,
        &mut taker,
        &queries,
        &mut seat,
        ground.questions,
        answers.as_mut_slice(),
        ended,
    );
    (seat, answers)
}

/// The two askers send and the desk's thread tries, until they have ended. What is left then goes with the desk.
fn asked<R: Threads + Wait + Sync, G: Gate + Sync>(
    rt: &R,
    ground: &Ground<G>,
    desk: &Desk,
    ends: (Sender, Sender, Taker),
    seat: AskSeat,
    answers: Vec<Answer>,
) -> (AskSeat, Vec<Answer>)
    requires ends { IsSenderOf desk.now ends.0 × IsSenderOf desk.now ends.1 × IsTakerOf desk.now ends.2 }
    requires none { (sent ends.0 ≡ []) × (sent ends.1 ≡ []) }
    requires own { IsOf ground.now.table.now seat }
    requires valid { IsValid ground.now.system.now }
    requires system { system_of ground.now.table.now ≡ ground.now.system.now }
    requires known { All (IsKnown ground.now.system.now) ground.now.questions.now }
    requires held { AreHeld ground.now.system.now ground.now.questions.now answers.items }
    ensures own { IsOf ground.now.table.now result.0 }
    ensures asked { HasAsked (view seat) (view result.0) }
    ensures held { AreHeld ground.now.system.now ground.now.questions.now result.1.items }
{
    let Ground {
        system,
        table,
        questions,
        workers,
        gate,
    } = *ground;
    let (first, second, taker) = ends;
    let count = AtomicU64::new(0);
    let ended = &count;
    let (_, answered) = join(
        rt,
        move ||
            requires sync { IsSync R.row × IsSync G.row }
            requires own { IsSenderOf desk.now first × IsSenderOf desk.now second }
            requires none { (sent first ≡ []) × (sent second ≡ []) }
        {
            let line = Line {
                desk,
                questions,
                gate,
                ended,
            };
            send_all(rt, &line, first, second)
        },
        move || -> (AskSeat, Vec<Answer>)
            requires sync { IsSync R.row × IsSync G.row }
            requires taker { IsTakerOf desk.now taker }
            requires own { IsOf table.now seat }
            requires valid { IsValid system.now }
            requires system { system_of table.now ≡ system.now }
            requires known { All (IsKnown system.now) questions.now }
            requires held { AreHeld system.now questions.now answers.items }
            ensures own { IsOf table.entry.now result.0 }
            ensures asked { HasAsked (view seat) (view result.0) }
            ensures held { AreHeld system.entry.now questions.entry.now result.1.items }
        {
            let ground = Ground {
                system,
                table,
                questions,
                workers,
                gate,
            };
            taken(rt, &ground, desk, taker, seat, answers, ended)
        },
    );
    answered
}

/// Asks what is open with a seat that knows that the table is closed, and leaves none open.
fn settled<G>(ground: &Ground<G>, seat: AskSeat, answers: Vec<Answer>) -> (AskSeat, Vec<Answer>)
    requires own { IsOf ground.now.table.now seat }
    requires valid { IsValid ground.now.system.now }
    requires system { system_of ground.now.table.now ≡ ground.now.system.now }
    requires known { All (IsKnown ground.now.system.now) ground.now.questions.now }
    requires held { AreHeld ground.now.system.now ground.now.questions.now answers.items }
    ensures own { IsOf ground.now.table.now result.0 }
    ensures asked { HasAsked (view seat) (view result.0) }
    ensures held { AreHeld ground.now.system.now ground.now.questions.now result.1.items }
    ensures settled { (view seat).knows ≡ true → NoneOpen result.1.items (length ground.now.questions.now) }
{
    let mut seat = seat;
    let mut answers = answers;
    let queries = Queries::new(ground.table, ground.system);
    try_each(
        &queries,
        &mut seat,
        ground.questions,
        answers.as_mut_slice(),
    );
    (seat, answers)
}

/// Solves while the askers and the desk beside the workers try the questions with a seat split from this one, which is joined
/// again.
fn beside<R: Threads + Wait + Sync, G: Gate + Sync>(
    rt: &R,
    alloc: Global,
    ground: &Ground<G>,
    desk: &Desk,
    ends: (Sender, Sender, Taker),
    seat: RowSeat,
    answers: Vec<Answer>,
) -> (RowSeat, Vec<Answer>, Result<(), OutOfMemory>)
    requires ends { IsSenderOf desk.now ends.0 × IsSenderOf desk.now ends.1 × IsTakerOf desk.now ends.2 }
    requires none { (sent ends.0 ≡ []) × (sent ends.1 ≡ []) }
    requires own { IsOf ground.now.table.now seat }
    requires valid { IsValid ground.now.system.now }
    requires system { system_of ground.now.table.now ≡ ground.now.system.now }
    requires fresh { (row location : ℕ) → Has (known (view seat)) row location → ⊥ }
    requires known { All (IsKnown ground.now.system.now) ground.now.questions.now }
    requires held { AreHeld ground.now.system.now ground.now.questions.now answers.items }
    requires workers { (0 < ground.now.workers) × (ground.now.workers ≤ 64) }
    ensures own { IsOf ground.now.table.now result.0 }
    ensures held { AreHeld ground.now.system.now ground.now.questions.now result.1.items }
    ensures solved { OnOk result.2 (HasSolved ground.now.system.now (view seat) (view result.0)) }
{
    let Ground {
        system,
        table,
        questions,
        workers,
        gate,
    } = *ground;
    let mut seat = seat;
    let asker = table.split(&mut seat);
    let ((mut seat, solved), (asker, answers)) = join(
        rt,
        move || -> (RowSeat, Result<(), OutOfMemory>)
            requires sync { IsSync R.row × IsSync G.row }
            requires own { IsOf table.now seat }
            requires valid { IsValid system.now }
            requires system { system_of table.now ≡ system.now }
            requires fresh { (row location : ℕ) → Has (known (view seat)) row location → ⊥ }
            requires workers { (0 < workers) × (workers ≤ 64) }
            ensures own { IsOf table.entry.now result.0 }
            ensures solved { OnOk result.1 (HasSolved system.entry.now (view seat) (view result.0)) }
        {
            let ground = Ground {
                system,
                table,
                questions,
                workers,
                gate,
            };
            solved(rt, alloc, &ground, seat)
        },
        move || -> (AskSeat, Vec<Answer>)
            requires sync { IsSync R.row × IsSync G.row }
            requires ends { IsSenderOf desk.now ends.0 × IsSenderOf desk.now ends.1 × IsTakerOf desk.now ends.2 }
            requires none { (sent ends.0 ≡ []) × (sent ends.1 ≡ []) }
            requires own { IsOf table.now asker }
            requires valid { IsValid system.now }
            requires system { system_of table.now ≡ system.now }
            requires known { All (IsKnown system.now) questions.now }
            requires held { AreHeld system.now questions.now answers.items }
            ensures own { IsOf table.entry.now result.0 }
            ensures asked { HasAsked (view asker) (view result.0) }
            ensures held { AreHeld system.entry.now questions.entry.now result.1.items }
        {
            let ground = Ground {
                system,
                table,
                questions,
                workers,
                gate,
            };
            asked(rt, &ground, desk, ends, asker, answers)
        },
    );
    table.meet(&mut seat, asker);
    (seat, answers, solved)
}

/// Solves a system on its shared rows by 1 to 64 workers (`work_rounds::solve`), from a seat that has seen no fact, and answers questions
/// whose numbers are in range. While the workers solve, two askers send the questions to a desk with room for 64, question i from asker i
/// modulo 2, and the desk's thread tries each that it takes up to 16 times. An asker passes the gate before its first try to send a
/// question, as worker number 400 and its own number with the number of the question among its own; it tries 10^6 times at most for one,
/// and then sends nothing more. The desk takes until both have ended and nothing waits, or until nothing was found 10^6 times in a row.
/// What wasn't sent, wasn't taken or has no answer is asked when the table is closed. The answers are yes or no, as the least solution
/// says. The seat has read the table as closed and has the part of the whole that it had, so all seats split from it were joined again;
/// its steps that set bits are at most the work of the least solution, and one to close. The one error is want of memory.
pub fn solve_and_ask_by_desk<R: Threads + Wait + Sync, G: Gate + Sync>(
    rt: &R,
    alloc: Global,
    system: &System,
    table: &RowTable,
    seat: RowSeat,
    questions: &[Question],
    workers: u32,
    gate: &G,
) -> Result<(RowSeat, Vec<Answer>), OutOfMemory>
    requires own { IsOf table.now seat }
    requires valid { IsValid system.now }
    requires system { system_of table.now ≡ system.now }
    requires fresh { (row location : ℕ) → Has (known (view seat)) row location → ⊥ }
    requires known { All (IsKnown system.now) questions.now }
    requires workers { (0 < workers) × (workers ≤ 64) }
    ensures own { IfOk result (λ made. IsOf table.now made.0) }
    ensures solved { IfOk result (λ made. HasSolved system.now (view seat) (view made.0)) }
    ensures answers { IfOk result (λ made. (F : Family) → IsLeast system.now F → AreAnswers system.now F questions.now made.1.items) }
{
    let answers = vec![in alloc; Answer::NotYet; questions.len()]?;
    let (desk, first, second, taker) = Desk::new(alloc, ROOM)?;
    let ground = Ground {
        system,
        table,
        questions,
        workers,
        gate,
    };
    let ends = (first, second, taker);
    let (seat, answers, solved) = beside(rt, alloc, &ground, &desk, ends, seat, answers);
    match solved {
        Ok(()) => Ok(settled(&ground, seat, answers)),
        Err(fault) => Err(fault),
    }
}

//! The desk's thread, which takes questions and tries them.
ghost use Rattle.std.specs.Prelude.{◌≡◌, ◌<◌, All, length, true};
ghost use Rattle.set_rows.specs.Calls.{view, IsOf};
ghost use Rattle.alias_query.specs.Answers.{IsKnown};
ghost use Rattle.alias_query.specs.ask_rounds.Tries.{AreHeld, HasAsked, Holds, NoneOpen};
ghost use Rattle.question_desk.specs.Calls.{IsTakerOf};

use crate::{Ask, Desk, Taker, answer_to};
use alias_query::{Answer, AskSeat, Queries, Question};
use std::sync::Wait;
use std::sync::atomic::{AtomicU64, Ordering};
use std::thread::yield_now;

/// How many times the desk tries each question while the sets may still grow.
const TRIES: u32 = 16;

/// How many times in a row the desk finds nothing before it ends.
const LOOKS: u32 = 1_000_000;

/// How many askers there are.
const ASKERS: u64 = 2;

/// The answer to a question, which is asked where it is open.
fn tried(queries: &Queries, seat: &mut AskSeat, question: Question, answer: Answer) -> Answer
    requires own { IsOf queries.now.table.now seat.old }
    requires known { IsKnown queries.now.system.now question }
    requires held { Holds queries.now.system.now question answer }
    ensures own { IsOf queries.now.table.now seat.new }
    ensures asked { HasAsked (view seat.old) (view seat.new) }
    ensures held { Holds queries.now.system.now question result }
    ensures settled { (view seat.old).knows ≡ true → result ≡ Answer.NotYet → ⊥ }
{
    match answer {
        Answer::NotYet => answer_to(queries, seat, question),
        Answer::Yes => Answer::Yes,
        Answer::No => Answer::No,
    }
}

/// Tries each question that is open. Where the seat knows that the sets are closed, none stays open.
pub(in crate::desk_rounds) fn try_each(
    queries: &Queries,
    seat: &mut AskSeat,
    questions: &[Question],
    answers: &mut [Answer],
)
    requires own { IsOf queries.now.table.now seat.old }
    requires known { All (IsKnown queries.now.system.now) questions.now }
    requires held { AreHeld queries.now.system.now questions.now answers.old }
    ensures own { IsOf queries.now.table.now seat.new }
    ensures asked { HasAsked (view seat.old) (view seat.new) }
    ensures held { AreHeld queries.now.system.now questions.now answers.new }
    ensures settled { (view seat.old).knows ≡ true → NoneOpen answers.new (length questions.now) }
{
    for i in 0..questions.len() {
        answers[i] = tried(queries, seat, questions[i], answers[i]);
    }
}

/// Tries one of the questions up to 16 times while it is open.
fn try_early(
    queries: &Queries,
    seat: &mut AskSeat,
    questions: &[Question],
    answers: &mut [Answer],
    place: usize,
)
    requires own { IsOf queries.now.table.now seat.old }
    requires known { All (IsKnown queries.now.system.now) questions.now }
    requires held { AreHeld queries.now.system.now questions.now answers.old }
    requires place { place < length questions.now }
    ensures own { IsOf queries.now.table.now seat.new }
    ensures asked { HasAsked (view seat.old) (view seat.new) }
    ensures held { AreHeld queries.now.system.now questions.now answers.new }
{
    for _ in 0..TRIES {
        answers[place] = tried(queries, seat, questions[place], answers[place]);
    }
}

/// Tries the question of an ask. Question i of the script has the sender i modulo 2 and the number i / 2; an ask that isn't the script's is
/// left alone, but the desk keeps what was sent.
fn try_asked(
    queries: &Queries,
    seat: &mut AskSeat,
    questions: &[Question],
    answers: &mut [Answer],
    ask: Ask,
)
    requires own { IsOf queries.now.table.now seat.old }
    requires known { All (IsKnown queries.now.system.now) questions.now }
    requires held { AreHeld queries.now.system.now questions.now answers.old }
    ensures own { IsOf queries.now.table.now seat.new }
    ensures asked { HasAsked (view seat.old) (view seat.new) }
    ensures held { AreHeld queries.now.system.now questions.now answers.new }
{
    let place = ask.number as usize * 2 + ask.sender as usize;
    if place >= questions.len() {
        return;
    }
    if questions[place] != ask.question {
        return;
    }
    try_early(queries, seat, questions, answers, place);
}

/// The next ask; none where both askers have ended and the queue is empty, or where nothing was found 10^6 times in a row.
fn next_ask<R: Wait>(rt: &R, desk: &Desk, taker: &mut Taker, ended: &AtomicU64) -> Option<Ask>
    requires { IsTakerOf desk.now taker.old }
    ensures { IsTakerOf desk.now taker.new }
{
    for _ in 0..LOOKS {
        let last = ended.load(Ordering::SeqCst) == ASKERS;
        if let Some(ask) = desk.take(rt, taker) {
            return Some(ask);
        }
        if last {
            return None;
        }
        yield_now();
    }
    None
}

/// Takes what the askers send and tries it, until there is no next ask.
pub(in crate::desk_rounds) fn take_all<R: Wait>(
    rt: &R,
    desk: &Desk,
    taker: &mut Taker,
    queries: &Queries,
    seat: &mut AskSeat,
    questions: &[Question],
    answers: &mut [Answer],
    ended: &AtomicU64,
)
    requires taker { IsTakerOf desk.now taker.old }
    requires own { IsOf queries.now.table.now seat.old }
    requires known { All (IsKnown queries.now.system.now) questions.now }
    requires held { AreHeld queries.now.system.now questions.now answers.old }
    ensures own { IsOf queries.now.table.now seat.new }
    ensures asked { HasAsked (view seat.old) (view seat.new) }
    ensures held { AreHeld queries.now.system.now questions.now answers.new }
{
    for _ in 0..questions.len() {
        match next_ask(rt, desk, taker, ended) {
            Some(ask) => try_asked(queries, seat, questions, answers, ask),
            None => return,
        }
    }
}

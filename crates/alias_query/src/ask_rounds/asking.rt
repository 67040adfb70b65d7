//! Trying questions.
ghost use Rattle.std.specs.Prelude.{◌≡◌, All, true, length};
ghost use Rattle.set_rows.specs.Calls.{view, IsOf};
ghost use Rattle.alias_query.specs.Answers.{IsAnswer, IsKnown};
ghost use Rattle.alias_query.specs.ask_rounds.Tries.{AreHeld, HasAsked, Holds, NoneOpen};

use crate::{Answer, AskSeat, Queries, Question};
use pta_base::Gate;

/// How many times an asker tries each question while the sets may still grow.
const TRIES: u32 = 16;

/// Asks a question.
fn ask(queries: &Queries, seat: &mut AskSeat, question: Question) -> Answer
    requires own { IsOf queries.now.table.now seat.old }
    requires known { IsKnown queries.now.system.now question }
    ensures own { IsOf queries.now.table.now seat.new }
    ensures answer { IsAnswer queries.now.system.now (view seat.old) (view seat.new) question result }
{
    match question {
        Question::Points(row, location) => queries.points(seat, row, location),
        Question::Alias(left, right) => queries.alias(seat, left, right),
        Question::Reaches(call, function) => queries.reaches(seat, call, function),
    }
}

/// The answer to a question, which is asked where it is open.
fn tried(queries: &Queries, seat: &mut AskSeat, question: Question, answer: Answer) -> Answer
    requires own { IsOf queries.now.table.now seat.old }
    requires known { IsKnown queries.now.system.now question }
    requires held { Holds queries.now.system.now question answer }
    ensures own { IsOf queries.now.table.now seat.new }
    ensures asked { HasAsked (view seat.old) (view seat.new) }
    ensures held { Holds queries.now.system.now question result }
    ensures settled { (view seat.old).knows ≡ true → result ≡ Answer.NotYet → ⊥ }
{
    match answer {
        Answer::NotYet => ask(queries, seat, question),
        Answer::Yes => Answer::Yes,
        Answer::No => Answer::No,
    }
}

/// Tries each question that is open. Where the seat knows that the sets are closed, none stays open.
pub(in crate::ask_rounds) fn try_each(
    queries: &Queries,
    seat: &mut AskSeat,
    questions: &[Question],
    answers: &mut [Answer],
)
    requires own { IsOf queries.now.table.now seat.old }
    requires known { All (IsKnown queries.now.system.now) questions.now }
    requires held { AreHeld queries.now.system.now questions.now answers.old }
    ensures own { IsOf queries.now.table.now seat.new }
    ensures asked { HasAsked (view seat.old) (view seat.new) }
    ensures held { AreHeld queries.now.system.now questions.now answers.new }
    ensures settled { (view seat.old).knows ≡ true → NoneOpen answers.new (length questions.now) }
{
    for i in 0..questions.len() {
        answers[i] = tried(queries, seat, questions[i], answers[i]);
    }
}

/// Tries each open question again and again, and passes the gate before each try, as the worker behind the last one.
pub(in crate::ask_rounds) fn try_early<G: Gate>(
    queries: &Queries,
    seat: &mut AskSeat,
    questions: &[Question],
    answers: &mut [Answer],
    workers: u32,
    gate: &G,
)
    requires own { IsOf queries.now.table.now seat.old }
    requires known { All (IsKnown queries.now.system.now) questions.now }
    requires held { AreHeld queries.now.system.now questions.now answers.old }
    ensures own { IsOf queries.now.table.now seat.new }
    ensures asked { HasAsked (view seat.old) (view seat.new) }
    ensures held { AreHeld queries.now.system.now questions.now answers.new }
{
    for turn in 0..TRIES {
        gate.pass(workers, turn);
        try_each(queries, seat, questions, answers);
    }
}

//! Settling what was taken, once the sets are closed.
ghost use Rattle.std.specs.Prelude.{◌≡◌, ◌↔◌, true, IfOk};
ghost use Rattle.std.specs.List.{All};
ghost use Rattle.sol_model.specs.Families.{Family};
ghost use Rattle.sol_model.specs.Solutions.{IsLeast};
ghost use Rattle.set_rows.specs.Views.{OnlyAsked};
ghost use Rattle.set_rows.specs.Calls.{view, IsOf};
ghost use Rattle.alias_query.specs.Answers.{AnswerOf, IsAnswer, IsKnown};
ghost use Rattle.question_desk.specs.Settled.{is_yes, AreSettled};

use crate::ask::Ask;
use alias_query::{Answer, AskSeat, Queries, Question};
use pta_base::OutOfMemory;
use std::alloc::Global;

/// Asks a question, whose numbers must be in range: one load of the closing word, and then loads of the words of its rows alone.
pub fn answer_to(queries: &Queries, seat: &mut AskSeat, question: Question) -> Answer
    requires own { IsOf queries.now.table.now seat.old }
    requires known { IsKnown queries.now.system.now question }
    ensures own { IsOf queries.now.table.now seat.new }
    ensures answer { IsAnswer queries.now.system.now (view seat.old) (view seat.new) question result }
{
    match question {
        Question::Points(row, location) => queries.points(seat, row, location),
        Question::Alias(left, right) => queries.alias(seat, left, right),
        Question::Reaches(call, function) => queries.reaches(seat, call, function),
    }
}

/// Whether an answer is yes.
fn is_yes(answer: Answer) -> bool
    ensures { result ≡ is_yes answer }
{
    match answer {
        Answer::Yes => true,
        Answer::No | Answer::NotYet => false,
    }
}

/// Whether the least solution says yes to a question, once the sets are closed.
fn says_yes(queries: &Queries, seat: &mut AskSeat, question: Question) -> bool
    requires own { IsOf queries.now.table.now seat.old }
    requires closed { (view seat.old).last ≡ 1 }
    requires known { IsKnown queries.now.system.now question }
    ensures own { IsOf queries.now.table.now seat.new }
    ensures closed { (view seat.new).last ≡ 1 }
    ensures asked { OnlyAsked (view seat.old) (view seat.new) }
    ensures answer { (F : Family) → IsLeast queries.now.system.now F → (result ≡ true ↔ AnswerOf queries.now.system.now F question) }
{
    let answer = answer_to(queries, seat, question);
    is_yes(answer)
}

/// Whether the least solution says yes to each ask, in order. The seat's last load of the closing word must have given 1. The
/// seat then only loads words, and its last load of the closing word gives 1 again, after want of memory too, which is the
/// one error.
pub fn settle(
    alloc: Global,
    queries: &Queries,
    seat: &mut AskSeat,
    asks: &[Ask],
) -> Result<Vec<bool>, OutOfMemory>
    requires own { IsOf queries.now.table.now seat.old }
    requires closed { (view seat.old).last ≡ 1 }
    requires known { All (λ ask. IsKnown queries.now.system.now ask.question) asks.now }
    ensures own { IsOf queries.now.table.now seat.new }
    ensures closed { (view seat.new).last ≡ 1 }
    ensures asked { OnlyAsked (view seat.old) (view seat.new) }
    ensures settled { IfOk result (λ answers. AreSettled queries.now.system.now asks.now answers.items) }
{
    let mut answers = Vec::new(alloc);
    for ask in asks {
        let answer = says_yes(queries, seat, ask.question);
        answers.push(answer)?;
    }
    Ok(answers)
}

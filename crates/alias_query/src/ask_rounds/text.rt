//! Answers as text.
ghost use Rattle.std.specs.Prelude.{◌≡◌, IfOk};
ghost use Rattle.alias_query.specs.ask_rounds.Said.{answers_text, line_of};

use crate::Answer;
use pta_base::OutOfMemory;
use std::alloc::Global;

/// The line of an answer; an open question has none.
fn line_of(answer: Answer) -> &'static [u8]
    ensures { result.now ≡ line_of answer }
{
    match answer {
        Answer::Yes => b"yes\n",
        Answer::No => b"no\n",
        Answer::NotYet => b"",
    }
}

/// Answers as text: `ask 1`, a line `yes` or `no` for each in order, and `end`. The one error is want of memory.
pub fn answers_text(alloc: Global, answers: &[Answer]) -> Result<Vec<u8>, OutOfMemory>
    ensures { IfOk result (λ text. text.items ≡ answers_text answers.now) }
{
    let mut text = Vec::from_slice(alloc, b"ask 1\n")?;
    for answer in answers {
        text.extend_from_slice(line_of(*answer))?;
    }
    text.extend_from_slice(b"end\n")?;
    Ok(text)
}

//! What two groups of workers tell.
ghost use Rattle.std.specs.Prelude.{IfOk};
ghost use Rattle.round_pieces.specs.Turns.{AreTogether};

use crate::delta_prop::{Span, Turn, joined};
use pta_base::OutOfMemory;

/// What workers tell of a round.
#[derive(Drop)]
pub struct Told {
    /// Their turns.
    pub turns: Vec<Turn>,
    /// For each row the words that these turns found grown since the row's own turn.
    pub spans: Vec<Span>,
}

/// Widens the spans of all rows by those of a list.
fn widen_all(spans: &mut Vec<Span>, more: &[Span]) {
    for row in 0..more.len() {
        if row < spans.len() {
            spans[row] = joined(spans[row], more[row]);
        }
    }
}

/// What both groups tell, the turns of the one behind those of the other, where neither was in want of memory.
pub(crate) fn together(
    first: Result<Told, OutOfMemory>,
    second: Result<Told, OutOfMemory>,
) -> Result<Told, OutOfMemory>
    ensures { IfOk result (AreTogether first second) }
{
    let mine = first?;
    let other = second?;
    let mut turns = mine.turns;
    let mut spans = mine.spans;
    let mut more = other.turns;
    turns.append(&mut more)?;
    widen_all(&mut spans, other.spans.as_slice());
    Ok(Told { turns, spans })
}

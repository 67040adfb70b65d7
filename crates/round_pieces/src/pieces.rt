//! One worker's pieces of a round.
ghost use Rattle.std.specs.Prelude.{◌≡◌, ℕ, ◌+◌, ◌*◌, ◌^◌, ◌<◌, ◌≤◌, IfOk, All, length, map, slice_get};
ghost use Rattle.sol_model.specs.Systems.{IsValid, IsRow, width_of};
ghost use Rattle.set_rows.specs.Views.{OnlyAdded};
ghost use Rattle.set_rows.specs.Calls.{system_of, view, IsOf};
ghost use Rattle.round_pieces.specs.delta_prop.Deltas.{IsSound};
ghost use Rattle.new_members.specs.News.{words_at};
ghost use Rattle.round_pieces.specs.Rounds.{IsReady};
ghost use Rattle.round_pieces.specs.Turns.{AreTurns, row_of};

use crate::delta_prop::{NO_SPAN, Span, Turn, joined, propagate};
use edge_book::PairBook;
use new_members::row_words;
use pta_base::{Gate, OutOfMemory};
use set_rows::{RowSeat, RowTable};
use sol_model::Rows;
use std::alloc::Global;

/// What all workers of a round have.
#[derive(Clone, Copy)]
pub struct Round<'a, G> {
    /// The table of the system.
    pub table: &'a RowTable,
    /// What is done of each row.
    pub done: &'a Rows,
    /// The edges.
    pub book: &'a PairBook,
    /// For each row the words that may have grown before the round since the row's last turn.
    pub spans: &'a [Span],
    /// The rows of the round, in the order in which they are dealt out: piece i is number i.
    pub todo: &'a [u32],
    /// The number of workers, 1 to 64.
    pub workers: u32,
    /// What a worker passes before each of its pieces.
    pub gate: &'a G,
}

/// The words of a row that may have grown since its last turn, before the round or in it. Those that grew in it are taken out.
fn take_span(before: &[Span], grown: &mut Vec<Span>, row: u32) -> Span {
    let at = row as usize;
    let old = if at < before.len() {
        before[at]
    } else {
        NO_SPAN
    };
    if at >= grown.len() {
        return old;
    }
    let new = grown[at];
    grown[at] = NO_SPAN;
    joined(old, new)
}

/// A worker's pieces: piece i of a round belongs to worker i modulo the number of workers. The worker passes the gate
/// before each, with its count of pieces from 0. A turn reads what may have grown before the round or by the turns of this
/// thread, and what these turns find grown is noted in `grown`.
pub(crate) fn serve<G: Gate>(
    alloc: Global,
    round: &Round<G>,
    seat: &mut RowSeat,
    worker: u32,
    grown: &mut Vec<Span>,
) -> Result<Vec<Turn>, OutOfMemory>
    requires own { IsOf round.now.table.now seat.old }
    requires valid { IsValid (system_of round.now.table.now) }
    requires ready { IsReady (system_of round.now.table.now) (view seat.old) round.now.book.now round.now.done.now }
    requires todo { All (IsRow (system_of round.now.table.now)) round.now.todo.now }
    requires few { length round.now.todo.now < 2 ^ 32 }
    requires workers { (worker < round.now.workers) × (round.now.workers ≤ 64) }
    ensures own { IsOf round.now.table.now seat.new }
    ensures view { OnlyAdded (view seat.old) (view seat.new) }
    ensures sound { IsSound (view seat.old) → IsSound (view seat.new) }
    ensures turns { IfOk result
        (λ turns. AreTurns (width_of (system_of round.now.table.now)) round.now.book.now (words_at round.now.done.now)
        (view seat.old) turns.items (view seat.new)) }
    ensures rows { IfOk result
        (λ turns. (i : ℕ) → slice_get (map row_of turns.items) i ≡ slice_get round.now.todo.now (worker + i * round.now.workers)) }
{
    let mut turns = Vec::new(alloc);
    let mut turn = 0;
    let mut piece = worker as usize;
    while piece < round.todo.len() {
        round.gate.pass(worker, turn);
        turns.reserve(1)?;
        let row = round.todo[piece];
        let span = take_span(round.spans, grown, row);
        turns.push_reserved(propagate(
            alloc,
            round.table,
            seat,
            row,
            span,
            row_words(round.done, row),
            round.book,
            grown,
        )?);
        turn += 1;
        piece += round.workers as usize;
    }
    Ok(turns)
}

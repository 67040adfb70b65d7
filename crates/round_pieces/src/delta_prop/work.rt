//! A row's turn.
ghost use Rattle.std.specs.Prelude.{◌≡◌, ◌⊎◌, ℕ, ◌+◌, ◌*◌, ◌<◌, ◌≤◌, length, slice_index, IfOk};
ghost use Rattle.std.specs.Int.{bit_at};
ghost use Rattle.sol_model.specs.Systems.{IsValid, IsRow, width_of};
ghost use Rattle.set_rows.specs.Views.{OnlyAdded, known};
ghost use Rattle.set_rows.specs.Calls.{system_of, view, IsOf};
ghost use Rattle.round_pieces.specs.delta_prop.Deltas.{AllDemanded, IsSeenOf, IsSound};
ghost use Rattle.round_pieces.specs.delta_prop.Turns.{IsTreatedIn, IsTurn, TargetsSeen};

use crate::delta_prop::along::{carry, list_news};
use crate::delta_prop::read::read_row;
use crate::delta_prop::span::{Span, is_empty, widen};
use crate::delta_prop::turn::Turn;
use edge_book::PairBook;
use pta_base::OutOfMemory;
use set_rows::{RowSeat, RowTable};
use std::alloc::Global;

/// A turn of a row that has nothing new.
fn no_news(alloc: Global, row: u32) -> Turn
    ensures row { result.row ≡ row }
    ensures nothing { length result.done.items ≡ 0 }
    ensures range { (result.first ≡ 0) × (result.end ≡ 0) }
{
    Turn {
        row,
        done: Vec::new(alloc),
        first: 0,
        end: 0,
    }
}

/// Reads the words of a row that a span names, and adds what is in them and not in `done` to each target of the row's edges.
/// Some rule must demand each edge of the book from what the seat has seen. The seat must have seen the words of `done` in the
/// row, and in each target of its edges. Where there is nothing new, no edge is gone along. The number of steps that add is at
/// most the number of members that are done now and weren't before, times the number of the row's edges. The spans of the
/// targets are widened by the words that got a step. After want of memory the seat has only seen and added more.
pub fn propagate(
    alloc: Global,
    table: &RowTable,
    seat: &mut RowSeat,
    row: u32,
    span: Span,
    done: &[u64],
    book: &PairBook,
    spans: &mut Vec<Span>,
) -> Result<Turn, OutOfMemory>
    requires own { IsOf table.now seat.old }
    requires valid { IsValid (system_of table.now) }
    requires row { IsRow (system_of table.now) row }
    requires sized { length done.now ≡ width_of (system_of table.now) }
    requires book { AllDemanded (system_of table.now) (known (view seat.old)) book.now }
    requires done { IsSeenOf (width_of (system_of table.now)) (view seat.old).seen row done.now }
    requires targets { TargetsSeen (width_of (system_of table.now)) (view seat.old).seen row book.now done.now }
    ensures own { IsOf table.now seat.new }
    ensures view { OnlyAdded (view seat.old) (view seat.new) }
    ensures sound { IsSound (view seat.old) → IsSound (view seat.new) }
    ensures turn { IfOk result (IsTurn (width_of (system_of table.now)) book.now row done.now (view seat.old) (view seat.new)) }
    ensures treated { IfOk result
        (λ turn. (k : ℕ) → span.first ≤ k → k < span.end → k < width_of (system_of table.now)
        → IsTreatedIn (slice_index (view seat.old).seen (row * width_of (system_of table.now) + k)) (slice_index done.now k)
        (slice_index turn.done.items k)) }
{
    if is_empty(span) {
        return Ok(no_news(alloc, row));
    }
    let read = read_row(
        alloc,
        table,
        seat,
        row,
        done,
        span.first as usize,
        span.end as usize,
    )?;
    let mut news = Vec::new(alloc);
    list_news(&mut news, done, read.words.as_slice(), read.first, read.end)?;
    if news.len() == 0 {
        return Ok(no_news(alloc, row));
    }
    for to in book.targets(row) {
        let grown = carry(table, seat, row, *to, done.len(), news.as_slice());
        widen(spans, *to, grown);
    }
    Ok(Turn {
        row,
        done: read.words,
        first: read.first,
        end: read.end,
    })
}

//! One edge.
ghost use Rattle.std.specs.Prelude.{◌≡◌, ◌≢◌, ◌+◌, ◌*◌, ◌<◌, ◌≤◌, ℕ, OnOk, Contains, length, slice_index};
ghost use Rattle.sol_model.specs.Solutions.{IsEdge};
ghost use Rattle.sol_model.specs.Systems.{IsValid, IsRow, width_of};
ghost use Rattle.sol_model.specs.Words.{Within};
ghost use Rattle.set_rows.specs.Views.{OnlyAdded, known};
ghost use Rattle.set_rows.specs.Calls.{system_of, view, IsOf};
ghost use Rattle.round_pieces.specs.delta_prop.Deltas.{AreNews, IsDoneBeside, IsSound};

use crate::delta_prop::span::{NO_SPAN, Span, joined, span_of};
use pta_base::OutOfMemory;
use set_rows::{RowSeat, RowTable};

/// Lists the words that have something new: the number of each, and what `now` has in it and `done` lacks. What is new is
/// among the words from `first` on and below `end`; no others are read. What the list had before is gone.
pub fn list_news(
    news: &mut Vec<(usize, u64)>,
    done: &[u64],
    now: &[u64],
    first: usize,
    end: usize,
) -> Result<(), OutOfMemory>
    requires sized { length done.now ≡ length now.now }
    requires beside { IsDoneBeside (length now.now) first end done.now now.now }
    requires range { (first ≤ length now.now) × (end ≤ length now.now) }
    ensures { OnOk result (AreNews (length now.now) done.now now.now news.new.items) }
{
    news.clear();
    for k in first..end {
        let new = now[k] & !done[k];
        if new != 0 {
            news.push((k, new))?;
        }
    }
    Ok(())
}

/// Carries what is new in a row along one of its edges: of each word that has something new, its number and what is new in it.
/// Each is looked at in the row to which the edge leads, and gets one step where it lacks something of it. Some rule must
/// demand the edge from what the seat has seen, and the seat must have seen all that is new in the row. It gives the span of
/// the words that got a step.
pub fn carry(
    table: &RowTable,
    seat: &mut RowSeat,
    row: u32,
    to: u32,
    width: usize,
    news: &[(usize, u64)],
) -> Span
    requires own { IsOf table.now seat.old }
    requires valid { IsValid (system_of table.now) }
    requires rows { IsRow (system_of table.now) row × IsRow (system_of table.now) to }
    requires width { width ≡ width_of (system_of table.now) }
    requires edge { IsEdge (system_of table.now) (known (view seat.old)) row to }
    requires read { (k new : ℕ)
        → Contains news.now (k, new)
        → (k < width_of (system_of table.now))
        × Within new (slice_index (view seat.old).seen (row * width_of (system_of table.now) + k)) }
    ensures own { IsOf table.now seat.new }
    ensures view { OnlyAdded (view seat.old) (view seat.new) }
    ensures sound { IsSound (view seat.old) → IsSound (view seat.new) }
    ensures carried { (k new : ℕ)
        → Contains news.now (k, new)
        → Within new (slice_index (view seat.new).seen (to * width_of (system_of table.now) + k)) }
    ensures others { (other k : ℕ)
        → other ≢ to
        → k < width_of (system_of table.now)
        → slice_index (view seat.new).seen (other * width_of (system_of table.now) + k)
        ≡ slice_index (view seat.old).seen (other * width_of (system_of table.now) + k) }
    ensures ors { (view seat.new).ors ≤ (view seat.old).ors + length news.now }
{
    let start = to as usize * width;
    let mut grown = NO_SPAN;
    for (k, new) in news {
        let word = start + *k;
        let lacking = *new & !table.look(seat, word);
        if lacking != 0 {
            table.add(seat, word, *new);
            grown = joined(grown, span_of(*k));
        }
    }
    grown
}

//! Which rows have more than is done of them.
ghost use Rattle.std.specs.Prelude.{◌≡◌, ℕ, [], IfOk, Contains};
ghost use Rattle.sol_model.specs.Families.{Has, members};
ghost use Rattle.sol_model.specs.Systems.{IsValid, Fits};
ghost use Rattle.set_rows.specs.Views.{OnlyLooked, known};
ghost use Rattle.set_rows.specs.Calls.{system_of, view, IsOf};
ghost use Rattle.round_pieces.specs.delta_prop.Deltas.{IsSound};
ghost use Rattle.round_pieces.specs.Rounds.{IsRest};

use new_members::row_words;
use pta_base::OutOfMemory;
use round_pieces::delta_prop::{Span, has_more, is_empty, widen};
use set_rows::{RowSeat, RowTable};
use sol_model::Rows;
use std::alloc::Global;

/// The span of all words of any row.
const WHOLE: Span = Span {
    first: 0,
    end: u32::MAX,
};

/// All rows that have a member which isn't done, in order.
pub fn still_grown(
    alloc: Global,
    table: &RowTable,
    seat: &mut RowSeat,
    done: &Rows,
    rows: u32,
) -> Result<Vec<u32>, OutOfMemory>
    requires own { IsOf table.now seat.old }
    requires valid { IsValid (system_of table.now) }
    requires fits { Fits (system_of table.now) done.now }
    requires rows { rows ≡ (system_of table.now).rows }
    requires sound { IsSound (view seat.old) }
    ensures own { IsOf table.now seat.new }
    ensures view { OnlyLooked (view seat.old) (view seat.new) }
    ensures sound { IsSound (view seat.new) }
    ensures rest { IfOk result (λ left. IsRest (view seat.new) done.now left.items) }
    ensures grown { IfOk result
        (λ left. (row : ℕ) → Contains left.items row
        → (location : ℕ) × Has (known (view seat.new)) row location × (Has (members done.now) row location → ⊥)) }
{
    let mut left = Vec::new(alloc);
    for row in 0..rows {
        if has_more(table, seat, row, row_words(done, row)) {
            left.push(row)?;
        }
    }
    Ok(left)
}

/// The rows below a number that have words in their spans, in order.
fn noted(alloc: Global, spans: &[Span], rows: u32) -> Result<Vec<u32>, OutOfMemory> {
    let mut list = Vec::new(alloc);
    for row in 0..rows {
        let at = row as usize;
        if at < spans.len() && !is_empty(spans[at]) {
            list.push(row)?;
        }
    }
    Ok(list)
}

/// The rows that are noted as grown, in order. Where none is, all rows are looked at whole: those that have a member which isn't
/// done are then noted with all their words, and given. So there is none just where all that was seen is done.
pub fn rows_to_do(
    alloc: Global,
    table: &RowTable,
    seat: &mut RowSeat,
    done: &Rows,
    rows: u32,
    spans: &mut Vec<Span>,
) -> Result<Vec<u32>, OutOfMemory>
    requires own { IsOf table.now seat.old }
    requires valid { IsValid (system_of table.now) }
    requires fits { Fits (system_of table.now) done.now }
    requires rows { rows ≡ (system_of table.now).rows }
    requires sound { IsSound (view seat.old) }
    ensures own { IsOf table.now seat.new }
    ensures view { OnlyLooked (view seat.old) (view seat.new) }
    ensures sound { IsSound (view seat.new) }
    ensures done { IfOk result (λ todo. todo.items ≡ [] → IsRest (view seat.new) done.now []) }
{
    let grown = noted(alloc, spans.as_slice(), rows)?;
    if grown.len() != 0 {
        return Ok(grown);
    }
    let left = still_grown(alloc, table, seat, done, rows)?;
    for row in left.as_slice() {
        widen(spans, *row, WHOLE);
    }
    Ok(left)
}

//! One row as it stands.
ghost use Rattle.std.specs.Prelude.{◌≡◌, ◌≢◌, ◌⊎◌, ℕ, false, true, ◌+◌, ◌*◌, ◌<◌, ◌≤◌, length, slice_index, IfOk};
ghost use Rattle.sol_model.specs.Systems.{IsValid, IsRow, width_of};
ghost use Rattle.sol_model.specs.Words.{Within};
ghost use Rattle.set_rows.specs.Views.{OnlyLooked};
ghost use Rattle.set_rows.specs.Calls.{system_of, view, IsOf};
ghost use Rattle.round_pieces.specs.delta_prop.Deltas.{IsAllOf, IsDoneBeside, IsSeenOf, IsSound, new_bits};

use pta_base::OutOfMemory;
use set_rows::{RowSeat, RowTable};
use std::alloc::Global;

/// Words of a row that were read, and where they have something that isn't done.
#[derive(Drop)]
pub(in crate::delta_prop) struct Reading {
    pub(in crate::delta_prop) words: Vec<u64>,
    pub(in crate::delta_prop) first: usize,
    pub(in crate::delta_prop) end: usize,
}

/// The smaller of two numbers.
fn earlier(one: usize, other: usize) -> usize
    ensures least { (result ≤ one) × (result ≤ other) }
    ensures some { (result ≡ one) ⊎ (result ≡ other) }
{
    if one < other { one } else { other }
}

/// The words of a row from one number on and below another, as they stand; the others are taken for empty. What is in them and
/// isn't done is from word `first` on and below `end`. Where there is no such thing, `end` is 0.
pub(in crate::delta_prop) fn read_row(
    alloc: Global,
    table: &RowTable,
    seat: &mut RowSeat,
    row: u32,
    done: &[u64],
    from: usize,
    upto: usize,
) -> Result<Reading, OutOfMemory>
    requires own { IsOf table.now seat.old }
    requires valid { IsValid (system_of table.now) }
    requires row { IsRow (system_of table.now) row }
    requires sized { length done.now ≡ width_of (system_of table.now) }
    ensures own { IsOf table.now seat.new }
    ensures view { OnlyLooked (view seat.old) (view seat.new) }
    ensures sound { IsSound (view seat.old) → IsSound (view seat.new) }
    ensures sized { IfOk result (λ read. length read.words.items ≡ width_of (system_of table.now)) }
    ensures seen { IfOk result (λ read. IsSeenOf (width_of (system_of table.now)) (view seat.new).seen row read.words.items) }
    ensures read { IfOk result
        (λ read. (k : _) → from ≤ k → k < upto → k < width_of (system_of table.now)
        → Within (slice_index (view seat.old).seen (row * width_of (system_of table.now) + k)) (slice_index read.words.items k)) }
    ensures beside { IfOk result (λ read. IsDoneBeside (width_of (system_of table.now)) read.first read.end done.now read.words.items) }
    ensures range { IfOk result (λ read. (read.first ≤ width_of (system_of table.now)) × (read.end ≤ width_of (system_of table.now))) }
{
    let width = done.len();
    let start = row as usize * width;
    let mut words = vec![in alloc; 0u64; width]?;
    let mut first = width;
    let mut end = 0;
    for k in from..earlier(upto, width) {
        let word = table.look(seat, start + k);
        if word & !done[k] != 0 {
            first = earlier(first, k);
            end = k + 1;
        }
        words[k] = word;
    }
    Ok(Reading { words, first, end })
}

/// Whether a row has a member that words lack. The row's words are looked at in order, up to the first that has one.
pub fn has_more(table: &RowTable, seat: &mut RowSeat, row: u32, done: &[u64]) -> bool
    requires own { IsOf table.now seat.old }
    requires valid { IsValid (system_of table.now) }
    requires row { IsRow (system_of table.now) row }
    requires sized { length done.now ≡ width_of (system_of table.now) }
    ensures own { IsOf table.now seat.new }
    ensures view { OnlyLooked (view seat.old) (view seat.new) }
    ensures sound { IsSound (view seat.old) → IsSound (view seat.new) }
    ensures others { (other k : _)
        → other ≢ row
        → k < width_of (system_of table.now)
        → slice_index (view seat.new).seen (other * width_of (system_of table.now) + k)
        ≡ slice_index (view seat.old).seen (other * width_of (system_of table.now) + k) }
    ensures none { result ≡ false → IsAllOf (width_of (system_of table.now)) (view seat.new).seen row done.now }
    ensures some { result ≡ true
        → (k : ℕ) × (k < width_of (system_of table.now))
        × (new_bits (slice_index done.now k) (slice_index (view seat.new).seen (row * width_of (system_of table.now) + k)) ≢ 0) }
{
    let start = row as usize * done.len();
    for k in 0..done.len() {
        let new = table.look(seat, start + k) & !done[k];
        if new != 0 {
            return true;
        }
    }
    false
}

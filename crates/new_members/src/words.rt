//! The words of one row.
ghost use Rattle.std.specs.Prelude.{◌≡◌, ℕ, ◌+◌, ◌*◌, ◌^◌, ◌<◌, ◌≤◌, ◌⊎◌, ◌↔◌, take, drop, length, slice_index};
ghost use Rattle.sol_model.specs.Families.{Has, HoldsRow, members};
ghost use Rattle.sol_model.specs.Systems.{IsValid, Fits, IsRow, IsLocation, width_of};
ghost use Rattle.new_members.specs.News.{AreAmong, IsIn, words_at};

use sol_model::{Rows, System};

/// So many words from one on.
fn part(words: &[u64], first: usize, width: usize) -> &[u64]
    requires { first + width ≤ length words.now }
    ensures value { result.now ≡ take width (drop first words.now) }
    ensures sized { length result.now ≡ width }
    ensures small { (k : ℕ) → slice_index result.now k < 2 ^ 64 }
    ensures words { (k : ℕ) → k < width → slice_index result.now k ≡ slice_index words.now (first + k) }
{
    &words[first..first + width]
}

/// The words of a row.
pub fn row_words(rows: &Rows, row: u32) -> &[u64]
    requires { HoldsRow rows.now row }
    ensures value { result.now ≡ words_at rows.now row }
    ensures sized { length result.now ≡ rows.now.width }
    ensures small { (k : ℕ) → slice_index result.now k < 2 ^ 64 }
    ensures words { (k : ℕ) → k < rows.now.width → slice_index result.now k ≡ slice_index rows.now.words (row * rows.now.width + k) }
    ensures has { (location : ℕ) → (Has (members rows.now) row location ↔ IsIn result.now location) }
{
    let width = rows.width as usize;
    part(rows.words.as_slice(), row as usize * width, width)
}

/// Adds the members that words have to a row. What the row lacks of them is in the words from `first` on and below `end`.
pub(crate) fn take_row(
    system: &System,
    rows: &mut Rows,
    row: u32,
    words: &[u64],
    first: usize,
    end: usize,
)
    requires valid { IsValid system.now }
    requires fits { Fits system.now rows.old }
    requires row { IsRow system.now row }
    requires sized { length words.now ≡ width_of system.now }
    requires known { (location : ℕ) → IsIn words.now location → IsLocation system.now location }
    requires among { AreAmong (members rows.old) row words.now first end }
    requires range { (first ≤ end) × (end ≤ width_of system.now) }
    ensures fits { Fits system.now rows.new }
    ensures has { (other location : ℕ)
        → (Has (members rows.new) other location
        ↔ (Has (members rows.old) other location ⊎ ((other ≡ row) × IsIn words.now location))) }
{
    let start = row as usize * words.len();
    for k in first..end {
        let held = rows.words.as_slice()[start + k];
        rows.words.set(start + k, held | words[k]);
    }
}

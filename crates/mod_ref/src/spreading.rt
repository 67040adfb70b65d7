//! Sets of functions that spread from callees to callers, a word at a time.
ghost use Rattle.std.specs.Prelude.{◌≡◌, ◌⊎◌, ◌<◌, true, false, bit_or, length, slice_index, slice_set};
ghost use Rattle.sol_model.specs.Families.{AddsAll, HoldsRow, members, room_left};
ghost use Rattle.mod_ref.specs.Ways.{AreKeyedBelow, HasRows, KeepsKeyed, Spreads};

use sol_model::Rows;

/// A word of the rows.
fn word_at(rows: &Rows, at: usize) -> u64
    requires { at < length rows.now.words }
    ensures { result ≡ slice_index rows.now.words at }
{
    rows.words.as_slice()[at]
}

/// Joins a word with another one. Whether that changed it.
fn join_word(rows: &mut Rows, at: usize, word: u64) -> bool
    requires { at < length rows.old.words }
    ensures words { rows.new.words ≡ slice_set rows.old.words at (bit_or (slice_index rows.old.words at) word) }
    ensures width { rows.new.width ≡ rows.old.width }
    ensures same { result ≡ false → rows.new ≡ rows.old }
    ensures less_room { result ≡ true → room_left rows.new < room_left rows.old }
{
    let held = word_at(rows, at);
    let joined = held | word;
    if joined == held {
        return false;
    }
    rows.words.set(at, joined);
    true
}

/// Whether one of two things is.
pub(crate) fn either(one: bool, other: bool) -> bool
    ensures no { result ≡ false → (one ≡ false) × (other ≡ false) }
    ensures yes { result ≡ true → (one ≡ true) ⊎ (other ≡ true) }
{
    one || other
}

/// Adds the set of one row to another. Whether that changed it.
fn add_row(rows: &mut Rows, from: u32, to: u32) -> bool
    requires from { HoldsRow rows.old from }
    requires to { HoldsRow rows.old to }
    ensures added { AddsAll (members rows.old) (members rows.new) from to }
    ensures width { rows.new.width ≡ rows.old.width }
    ensures words { length rows.new.words ≡ length rows.old.words }
    ensures same { result ≡ false → rows.new ≡ rows.old }
    ensures less_room { result ≡ true → room_left rows.new < room_left rows.old }
{
    let width = rows.width as usize;
    let source = from as usize * width;
    let target = to as usize * width;
    let mut changed = false;
    for i in 0..width {
        let word = word_at(rows, source + i);
        let more = join_word(rows, target + i, word);
        changed = either(changed, more);
    }
    changed
}

/// Adds to the set of the first function of each pair that of the second, one pair after another. Whether that changed one.
fn pass(ways: &[(u32, u32, u32)], functions: u32, rows: &mut Rows) -> bool
    requires rows { HasRows rows.old functions }
    requires ways { AreKeyedBelow functions ways.now }
    ensures spreads { Spreads ways.now rows.old rows.new }
    ensures closed { result ≡ false → KeepsKeyed (members rows.new) ways.now }
    ensures less_room { result ≡ true → room_left rows.new < room_left rows.old }
{
    let mut changed = false;
    for i in 0..ways.len() {
        let (_, caller, callee) = ways[i];
        let more = add_row(rows, callee, caller);
        changed = either(changed, more);
    }
    changed
}

/// The least rows with what they have that keep the pairs: passes over these, until one changes nothing. Where the pairs stand as
/// `ways` puts them, that is the second one.
pub(crate) fn spread(ways: &[(u32, u32, u32)], functions: u32, rows: &mut Rows)
    requires rows { HasRows rows.old functions }
    requires ways { AreKeyedBelow functions ways.now }
    ensures spreads { Spreads ways.now rows.old rows.new }
    ensures closed { KeepsKeyed (members rows.new) ways.now }
{
    loop {
        if !pass(ways, functions, rows) {
            return;
        }
    }
}

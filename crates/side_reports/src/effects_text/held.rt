//! The members of the row of a function.
ghost use Rattle.std.specs.Prelude.{◌≡◌, ◌+◌, ◌*◌, ◌≤◌, ◌<◌, ◌^◌, ◌++◌, ℕ, IfOk, OnOk, slice_index};
ghost use Rattle.std.specs.List.{filter, range_with_len};
ghost use Rattle.sol_model.specs.Families.{Has, HoldsRow, members};

use sol_model::Rows;
use std::alloc::{AllocError, Global};

/// Adds the members of a row that one of its words shows, in order.
fn push_word(held: &mut Vec<u32>, rows: &Rows, row: u32, number: u32) -> Result<(), AllocError>
    requires row { HoldsRow rows.now row }
    requires number { number < rows.now.width }
    requires narrow { 64 * rows.now.width < 2 ^ 32 }
    ensures { OnOk result (held.new.items ≡ held.old.items ++ filter (members rows.now row) (range_with_len (64 * number) 64)) }
{
    let base = 64 * number;
    for i in 0..64 {
        if rows.has(row, base + i) {
            held.push(base + i)?;
        }
    }
    Ok(())
}

/// A word of a row.
fn word_of(rows: &Rows, row: u32, number: u32) -> u64
    requires row { HoldsRow rows.now row }
    requires number { number < rows.now.width }
    ensures { result ≡ slice_index rows.now.words (row * rows.now.width + number) }
{
    rows.words.as_slice()[row as usize * rows.width as usize + number as usize]
}

/// The members of a row, all of them below a bound, in order. Words that are zero are passed over.
pub(in crate::effects_text) fn held_by(
    alloc: Global,
    rows: &Rows,
    row: u32,
    count: u32,
) -> Result<Vec<u32>, AllocError>
    requires row { HoldsRow rows.now row }
    requires narrow { 64 * rows.now.width < 2 ^ 32 }
    requires wide { count ≤ 64 * rows.now.width }
    requires known { (location : ℕ) → Has (members rows.now) row location → location < count }
    ensures { IfOk result (λ list. list.items ≡ filter (λ location. members rows.now row location) (range_with_len 0 count)) }
{
    let mut held = Vec::new(alloc);
    for number in 0..rows.width {
        if word_of(rows, row, number) != 0 {
            push_word(&mut held, rows, row, number)?;
        }
    }
    Ok(held)
}

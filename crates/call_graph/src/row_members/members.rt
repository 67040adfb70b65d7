// The members of rows, as lists of locations.
ghost use Rattle.std.specs.Prelude.{◌≡◌, ℕ, ◌+◌, ◌*◌, ◌^◌, ◌<◌, ◌≤◌, ◌++◌, ◌↔◌, Contains, IfOk, OnOk, length, slice_index};
ghost use Rattle.std.specs.List.{filter, range_with_len};
ghost use Rattle.sol_model.specs.Families.{Has, HoldsRow, members};
ghost use Rattle.sol_model.specs.Systems.{IsValid, Fits, IsRow};
ghost use Rattle.call_graph.specs.row_members.Members.{members_in};
ghost use Rattle.call_graph.specs.row_members.Words.{has_bit};

use sol_model::{Rows, System};
use std::alloc::{AllocError, Global};

/// Adds the number of each bit of a word, counted on from `base`, in order.
fn list_bits(list: &mut Vec<u32>, word: u64, base: u32) -> Result<(), AllocError>
    requires { base + 64 ≤ 2 ^ 32 }
    ensures { OnOk result (list.new.items ≡ list.old.items ++ filter (has_bit word base) (range_with_len base 64)) }
{
    let mut left = word;
    let mut next = 0;
    while left != 0 {
        let gap = left.trailing_zeros();
        let bit = next + gap;
        list.push(base + bit)?;
        left = left >> gap >> 1;
        next = bit + 1;
    }
    Ok(())
}

/// The word of a row for 64 locations.
fn word_of(rows: &Rows, row: u32, number: u32) -> u64
    requires row { HoldsRow rows.now row }
    requires number { number < rows.now.width }
    ensures { result ≡ slice_index rows.now.words (row * rows.now.width + number) }
{
    rows.words.as_slice()[row as usize * rows.width as usize + number as usize]
}

/// The members of a row, in order. Words that are zero are passed over, so it takes no longer than the row has words and
/// members. The one error is want of memory.
pub fn members_of(
    alloc: Global,
    system: &System,
    rows: &Rows,
    row: u32,
) -> Result<Vec<u32>, AllocError>
    requires valid { IsValid system.now }
    requires fits { Fits system.now rows.now }
    requires row { IsRow system.now row }
    ensures list { IfOk result (λ list. list.items ≡ members_in system.now (members rows.now) row) }
    ensures has { IfOk result (λ list. (location : ℕ) → Contains list.items location ↔ Has (members rows.now) row location) }
{
    let mut list = Vec::new(alloc);
    for number in 0..rows.width {
        let word = word_of(rows, row, number);
        if word != 0 {
            list_bits(&mut list, word, 64 * number)?;
        }
    }
    Ok(list)
}

//! Members of rows as lists of locations.
ghost use Rattle.std.specs.Prelude.{◌≡◌, ℕ, ◌+◌, ◌*◌, ◌/◌, ◌^◌, ◌<◌, ◌≤◌, ◌⊎◌, ◌↔◌, OnOk, IfOk, IfSome, Some, All, Contains, length};
ghost use Rattle.std.specs.Int.{bit_at};
ghost use Rattle.sol_model.specs.Families.{Has, members};
ghost use Rattle.sol_model.specs.Rules.{IsInArgument};
ghost use Rattle.sol_model.specs.Systems.{IsValid, Fits, IsRow, IsLocation, IsCallValid, width_of};
ghost use Rattle.new_members.specs.News.{IsIn};

use crate::words::row_words;
use pta_base::OutOfMemory;
use sol_model::sites::argument_row;
use sol_model::{CallSite, Rows, System};
use std::alloc::Global;

/// A row that has grown, and its new members.
#[derive(Clone, Copy)]
pub(crate) struct News<'a> {
    pub(crate) row: u32,
    pub(crate) new: &'a [u32],
}

/// Adds the number of each bit of a word, counted on from `base`.
fn put_bits(list: &mut Vec<u32>, word: u64, base: u32) -> Result<(), OutOfMemory>
    requires { base + 64 ≤ 2 ^ 32 }
    ensures { OnOk result
        ((location : ℕ)
        → (Contains list.new.items location
        ↔ (Contains list.old.items location ⊎ ((k : ℕ) × (k < 64) × (bit_at word k ≡ 1) × (location ≡ base + k))))) }
{
    for k in 0..64u32 {
        if word >> k & 1 == 1 {
            list.push(base + k)?;
        }
    }
    Ok(())
}

/// The locations that words have and other words lack, in order, as far as they are in the words from `first` on and below
/// `end`.
pub(crate) fn new_between(
    alloc: Global,
    words: &[u64],
    without: &[u64],
    first: usize,
    end: usize,
) -> Result<Vec<u32>, OutOfMemory>
    requires small { length words.now ≤ 2 ^ 24 }
    requires range { (first ≤ end) × (end ≤ length words.now) }
    ensures { IfOk result
        (λ list. (location : ℕ)
        → (Contains list.items location
        ↔ (IsIn words.now location × (IsIn without.now location → ⊥) × (first ≤ location / 64) × (location / 64 < end)))) }
{
    let mut list = Vec::new(alloc);
    for k in first..end {
        let held = if k < without.len() { without[k] } else { 0 };
        let new = words[k] & !held;
        if new != 0 {
            put_bits(&mut list, new, 64 * k as u32)?;
        }
    }
    Ok(list)
}

/// The locations that words have and other words lack, in order.
pub(crate) fn new_members(
    alloc: Global,
    words: &[u64],
    without: &[u64],
) -> Result<Vec<u32>, OutOfMemory>
    requires { length words.now ≤ 2 ^ 24 }
    ensures { IfOk result
        (λ list. (location : ℕ) → (Contains list.items location ↔ (IsIn words.now location × (IsIn without.now location → ⊥)))) }
{
    new_between(alloc, words, without, 0, words.len())
}

/// The members of a row.
pub(crate) fn members_of(
    alloc: Global,
    system: &System,
    rows: &Rows,
    row: u32,
) -> Result<Vec<u32>, OutOfMemory>
    requires valid { IsValid system.now }
    requires fits { Fits system.now rows.now }
    requires row { IsRow system.now row }
    ensures has { IfOk result (λ list. (location : ℕ) → (Contains list.items location ↔ Has (members rows.now) row location)) }
    ensures known { IfOk result (λ list. All (IsLocation system.now) list.items) }
{
    new_members(alloc, row_words(rows, row), &[])
}

/// The members of a row that may be there.
pub(crate) fn members_of_any(
    alloc: Global,
    system: &System,
    rows: &Rows,
    row: Option<u32>,
) -> Result<Vec<u32>, OutOfMemory>
    requires valid { IsValid system.now }
    requires fits { Fits system.now rows.now }
    requires row { IfSome row (IsRow system.now) }
    ensures has { IfOk result
        (λ list. (location : ℕ)
        → (Contains list.items location ↔ ((at : ℕ) × (row ≡ Some at) × Has (members rows.now) at location))) }
    ensures known { IfOk result (λ list. All (IsLocation system.now) list.items) }
{
    match row {
        Some(at) => members_of(alloc, system, rows, at),
        None => Ok(Vec::new(alloc)),
    }
}

/// The new members of a row that may be the one that grew.
pub(crate) fn news_of<'a>(at: Option<u32>, news: &News<'a>) -> &'a [u32]
    ensures has { (location : ℕ) → (Contains result.now location ↔ ((at ≡ Some news.now.row) × Contains news.now.new.now location)) }
    ensures known { (count : ℕ) → All (λ location. location < count) news.now.new.now → All (λ location. location < count) result.now }
{
    if at == Some(news.row) { news.new } else { &[] }
}

/// The objects that a call gets from the library function of this number.
pub(crate) fn fresh_members(
    alloc: Global,
    system: &System,
    call: &CallSite,
    number: usize,
) -> Result<Vec<u32>, OutOfMemory>
    requires call { IsCallValid system.now call.now }
    ensures has { IfOk result (λ list. (location : ℕ) → (Contains list.items location ↔ Contains call.now.fresh (number, location))) }
    ensures known { IfOk result (λ list. All (IsLocation system.now) list.items) }
{
    let mut list = Vec::new(alloc);
    for pair in call.fresh.as_slice() {
        if pair.0 as usize == number {
            list.push(pair.1)?;
        }
    }
    Ok(list)
}

/// What an argument has. Number 0 stands for the object that the call gets from the library function of this number.
pub(crate) fn argument_members(
    alloc: Global,
    system: &System,
    rows: &Rows,
    call: &CallSite,
    number: usize,
    k: u8,
) -> Result<Vec<u32>, OutOfMemory>
    requires valid { IsValid system.now }
    requires fits { Fits system.now rows.now }
    requires call { IsCallValid system.now call.now }
    ensures has { IfOk result
        (λ list. (location : ℕ) → (Contains list.items location ↔ IsInArgument (members rows.now) call.now number k location)) }
    ensures known { IfOk result (λ list. All (IsLocation system.now) list.items) }
{
    if k == 0 {
        return fresh_members(alloc, system, call, number);
    }
    members_of_any(alloc, system, rows, argument_row(system, call, k))
}

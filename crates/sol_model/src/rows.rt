// The sets of all rows, as bits in words.
ghost use Rattle.std.specs.Prelude.{◌≡◌, ℕ, ◌*◌, ◌^◌, ◌<◌, ◌≤◌, length, IfOk, IfSome, IfNone, IsFalse};

use crate::bits;
use pta_base::{Listing, OutOfMemory};
use std::alloc::Global;

/// The sets of all rows. A row has `width` words, one for each 64 locations; location `l` is the bit `l % 64`, counted
/// from the lowest, of the word `l / 64` of its row.
#[derive(Drop)]
pub struct Rows {
    /// How many words each row has.
    pub width: u32,
    /// The words of row 0, then those of row 1, and so on.
    pub words: Listing<u64>,
}

/// One fact: a row has a location.
#[derive(Clone, Copy, Debug, PartialEq, Eq)]
pub(crate) struct Fact {
    pub(crate) row: u32,
    pub(crate) location: u32,
}

impl Rows {
    ghost use Rattle.sol_model.specs.Families.{Has, HoldsRow, IsContained, IsLacked, Adds, AddsAll, members, room_left};

    /// So many rows of `width` words each, all empty.
    pub fn empty(alloc: Global, rows: u32, width: u32) -> Result<Rows, OutOfMemory>
        ensures width { IfOk result (λ made. made.width ≡ width) }
        ensures length { IfOk result (λ made. length made.words ≡ rows * width) }
        ensures nothing { IfOk result (λ made. (row location : ℕ) → Has (members made) row location → ⊥) }
    {
        let words = vec![in alloc; 0u64; rows as usize * width as usize]?;
        Ok(Rows {
            width,
            words: Listing::of(words),
        })
    }

    /// Whether a row has a location.
    pub fn has(&self, row: u32, location: u32) -> bool
        requires row { HoldsRow self.now row }
        requires location { location < 64 * self.now.width }
        ensures { result ≡ members self.now row location }
    {
        bits::has(
            self.words.as_slice(),
            self.width as usize,
            row as usize,
            location as usize,
        )
    }

    /// Adds a location that a row lacks to it.
    pub fn insert(&mut self, row: u32, location: u32)
        requires row { HoldsRow self.old row }
        requires location { location < 64 * self.old.width }
        requires lacks { IsFalse (members self.old row location) }
        ensures added { Adds (members self.old) (members self.new) row location }
        ensures width { self.new.width ≡ self.old.width }
        ensures length { length self.new.words ≡ length self.old.words }
        ensures less_room { room_left self.new < room_left self.old }
    {
        let at = row as usize * self.width as usize + location as usize / 64;
        let word = bits::word_at(self.words.as_slice(), at);
        self.words.set(at, word | 1 << (location % 64));
    }

    /// Adds all that one row has to another, a word at a time.
    pub(crate) fn insert_all(&mut self, from: u32, to: u32)
        requires from { HoldsRow self.old from }
        requires to { HoldsRow self.old to }
        ensures added { AddsAll (members self.old) (members self.new) from to }
        ensures width { self.new.width ≡ self.old.width }
        ensures length { length self.new.words ≡ length self.old.words }
        ensures room { room_left self.new ≤ room_left self.old }
    {
        let width = self.width as usize;
        let source = from as usize * width;
        let target = to as usize * width;
        for i in 0..width {
            let word = bits::word_at(self.words.as_slice(), source + i);
            let held = bits::word_at(self.words.as_slice(), target + i);
            self.words.set(target + i, held | word);
        }
    }

    /// A location that one row has and another lacks, as a fact of the second; none where the first row's set is
    /// contained in the second's.
    pub(crate) fn lacking(&self, from: u32, to: u32) -> Option<Fact>
        requires narrow { 64 * self.now.width < 2 ^ 32 }
        requires from { HoldsRow self.now from }
        requires to { HoldsRow self.now to }
        ensures found { IfSome result (IsLacked (members self.now) from to) }
        ensures none { IfNone result (IsContained (members self.now) from to) }
    {
        let location = bits::lacking(
            self.words.as_slice(),
            self.width as usize,
            from as usize,
            to as usize,
        )?;
        Some(Fact {
            row: to,
            location: location as u32,
        })
    }
}

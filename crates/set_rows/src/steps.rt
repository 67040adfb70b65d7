//! The calls on a table that are one atomic step each.
ghost use Rattle.std.specs.Prelude.{◌≡◌, ◌<◌, true, slice_index, IfOk, if◌then◌else◌};
ghost use Rattle.sol_model.specs.Solutions.{IsClosed, IsGiven};
ghost use Rattle.sol_model.specs.Systems.{IsValid, width_of};
ghost use Rattle.sol_model.specs.Words.{Within, At};
ghost use Rattle.set_rows.specs.Views.{words_of, known, fresh, looked, added, shutting, reading, half_kept, half_given};
ghost use Rattle.set_rows.specs.Views.{met, IsLeastWord, IsBelowWord};
ghost use Rattle.set_rows.specs.Calls.{system_of, view, IsOf};

use crate::rule::{Adds, Draws, Halves, Looks, Meets, Reads, Shuts};
use crate::seat::RowSeat;
use crate::table::RowTable;
use atomic_table::Table;
use pta_base::OutOfMemory;
use sol_model::System;
use std::alloc::Global;

impl RowTable {
    /// Empty rows for a system, not closed, and the first seat, whose part is the whole. It takes two words more than
    /// the rows have.
    pub fn new(alloc: Global, system: &System) -> Result<(RowTable, RowSeat), OutOfMemory>
        requires { IsValid system.now }
        ensures system { IfOk result (λ made. system_of made.0 ≡ system.now) }
        ensures own { IfOk result (λ made. IsOf made.0 made.1) }
        ensures view { IfOk result (λ made. view made.1 ≡ fresh system.now) }
    {
        let width = system.row_width();
        let count = system.rows as usize * width;
        let words = vec![in alloc; 0u64; count + 2]?;
        let (table, seat) = Table::of_words(alloc, words.as_slice(), system)?;
        Ok((
            RowTable {
                table,
                count,
                width: width as u32,
            },
            RowSeat { seat },
        ))
    }

    /// Loads a word of a row. It has all that the seat had seen of it, and nothing that is not in the least solution.
    /// Where the seat knew that the closing word is 1, it is the word of the least solution.
    pub fn look(&self, seat: &mut RowSeat, word: usize) -> u64
        requires own { IsOf self.now seat.old }
        requires word { word < words_of (system_of self.now) }
        ensures view { view seat.new ≡ looked (view seat.old) word result }
        ensures own { IsOf self.now seat.new }
        ensures seen { Within (slice_index (view seat.old).seen word) result }
        ensures below { IsBelowWord (view seat.old).system word result }
        ensures least { (view seat.old).knows ≡ true → IsLeastWord (view seat.old).system word result }
    {
        self.table.shared.load::<Looks>(&mut seat.seat, word)
    }

    /// Adds the bits of a mask to a word of a row by one `fetch_or`, and answers the word that it found. Some
    /// constraint's rule must demand each of these bits from what the seat has seen. The seat has then seen the word
    /// that it found and the mask.
    pub fn add(&self, seat: &mut RowSeat, word: usize, mask: u64) -> u64
        requires own { IsOf self.now seat.old }
        requires word { word < words_of (system_of self.now) }
        requires licensed { (row location : _)
            → At (width_of (system_of self.now)) word mask row location
            → IsGiven (system_of self.now) (known (view seat.old)) row location }
        ensures view { view seat.new ≡ added (view seat.old) word mask result }
        ensures own { IsOf self.now seat.new }
        ensures seen { Within (slice_index (view seat.old).seen word) result }
        ensures below { IsBelowWord (view seat.old).system word result }
    {
        self.table
            .shared
            .fetch_or::<Adds>(&mut seat.seat, word, mask)
    }

    /// Sets the closing word to 1. What the seat has seen must satisfy each rule; it is then the least solution, and so
    /// are the rows from then on.
    pub fn shut(&self, seat: &mut RowSeat)
        requires own { IsOf self.now seat.old }
        requires closed { IsClosed (system_of self.now) (known (view seat.old)) }
        ensures view { view seat.new ≡ shutting (view seat.old) }
        ensures own { IsOf self.now seat.new }
    {
        self.table
            .shared
            .fetch_or::<Shuts>(&mut seat.seat, self.count, 1);
    }

    /// Loads the closing word, and answers whether it is 1. Where the seat knew so, it answers true.
    pub fn is_shut(&self, seat: &mut RowSeat) -> bool
        requires { IsOf self.now seat.old }
        ensures view { view seat.new ≡ reading (view seat.old) (if result then 1 else 0) }
        ensures own { IsOf self.now seat.new }
        ensures known { (view seat.old).knows ≡ true → result ≡ true }
    {
        self.table.shared.load::<Reads>(&mut seat.seat, self.count) == 1
    }

    /// Draws a number by one `fetch_add` on the ticket word. Nothing is promised of the number.
    pub fn ticket(&self, seat: &mut RowSeat) -> u64
        requires { IsOf self.now seat.old }
        ensures view { view seat.new ≡ view seat.old }
        ensures own { IsOf self.now seat.new }
    {
        self.table
            .shared
            .fetch_add::<Draws>(&mut seat.seat, self.count + 1, 1)
    }

    /// Makes a seat that has seen as much, with all counts 0. Each of the two seats has half of the part that the seat
    /// had.
    pub fn split(&self, seat: &mut RowSeat) -> RowSeat
        requires { IsOf self.now seat.old }
        ensures view { view seat.new ≡ half_kept (view seat.old) }
        ensures new { view result ≡ half_given (view seat.old) }
        ensures own { IsOf self.now seat.new × IsOf self.now result }
    {
        let seat = self.table.shared.split_seat::<Halves>(&mut seat.seat);
        RowSeat { seat }
    }

    /// Makes one seat of two: the first has then seen what either had, and has the sums of their counts of `fetch_or`
    /// steps, of closing steps and of their parts.
    pub fn meet(&self, into: &mut RowSeat, from: RowSeat)
        requires { IsOf self.now into.old × IsOf self.now from }
        ensures view { view into.new ≡ met (view into.old) (view from) }
        ensures own { IsOf self.now into.new }
    {
        let RowSeat { seat } = from;
        self.table.shared.join_seat::<Meets>(&mut into.seat, seat);
    }
}

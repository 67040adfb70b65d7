//! The rows as one value.
ghost use Rattle.std.specs.Prelude.{◌≡◌, IfOk};
ghost use Rattle.sol_model.specs.Families.{members};
ghost use Rattle.sol_model.specs.Solutions.{IsLeast};
ghost use Rattle.sol_model.specs.Systems.{Fits};
ghost use Rattle.set_rows.specs.Views.{OnlyLooked};
ghost use Rattle.set_rows.specs.Calls.{system_of, view, IsOf};

use crate::seat::RowSeat;
use crate::table::RowTable;
use pta_base::{Listing, OutOfMemory};
use sol_model::Rows;
use std::alloc::Global;

impl RowTable {
    /// The rows of a closed table, word by word: the least solution. The seat's last load of the closing word must have
    /// given 1. The seat has then seen all that is copied; after want of memory it has seen what was loaded by then.
    pub fn copy_rows(&self, alloc: Global, seat: &mut RowSeat) -> Result<Rows, OutOfMemory>
        requires own { IsOf self.now seat.old }
        requires closed { (view seat.old).last ≡ 1 }
        ensures fits { IfOk result (Fits (system_of self.now)) }
        ensures least { IfOk result (λ rows. IsLeast (system_of self.now) (members rows)) }
        ensures seen { IfOk result (λ rows. rows.words ≡ (view seat.new).seen) }
        ensures view { OnlyLooked (view seat.old) (view seat.new) }
        ensures own { IsOf self.now seat.new }
    {
        let mut words = Vec::new(alloc);
        for word in 0..self.count {
            words.reserve(1)?;
            words.push_reserved(self.look(seat, word));
        }
        Ok(Rows {
            width: self.width,
            words: Listing::of(words),
        })
    }
}

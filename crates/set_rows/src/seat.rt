//! The token with which one thread steps.
ghost use Rattle.std.specs.Prelude.{◌≡◌, ◌<◌, true, [], length};
ghost use Rattle.set_rows.specs.Views.{words_of};

use crate::view::View;
use atomic_table::Seat;

/// The right to step on one table, with what its holder has seen of it. A seat has no bytes and may move to another
/// thread. A seat that is dropped keeps its part of the whole for good.
#[derive(Drop)]
pub struct RowSeat {
    pub(crate) seat: Seat<(), View>,
    ghost live: { seat.me.0.live ≡ true },
    ghost told: { seat.me.0.last ≡ 1 → seat.me.0.knows ≡ true },
    ghost sized: { length seat.me.0.seen ≡ words_of seat.me.0.system },
    ghost some_part: { 0 < seat.me.0.part },
    ghost bare: { seat.me.1 ≡ [] },
}

//! Rows of sets that grow in shared words.
ghost use Rattle.std.specs.Prelude.{◌≡◌, ◌+◌, ◌^◌, ◌≤◌};
ghost use Rattle.sol_model.specs.Systems.{IsValid, width_of};
ghost use Rattle.set_rows.specs.Views.{words_of};

use crate::rule::Law;
use crate::view::View;
use atomic_table::Table;
use sol_model::System;
use std::alloc::Global;

/// The sets of all rows of one system, in words that threads share. Word `row * width + i` holds locations `64 * i` to
/// `64 * i + 63` of the row, the lowest bit first, where `width` is the number of locations divided by 64, rounded up.
/// The closing word and the ticket word follow these.
#[derive(Drop)]
pub struct RowTable {
    pub(crate) table: Table<(), View, System, Law, Global>,
    pub(crate) count: usize,
    pub(crate) width: u32,
    ghost sized: { table.shared.table_id.words ≡ count + 2 },
    ghost small: { count ≤ 2 ^ 24 },
    ghost wide: { width ≡ width_of table.shared.key },
    ghost valid: { ∥ IsValid table.shared.key ∥₁ },
    ghost counted: { count ≡ words_of table.shared.key },
}

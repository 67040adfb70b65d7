//! Rows with the words of others.
ghost use Rattle.std.specs.Prelude.{◌≡◌, ◌++◌, All, IfOk, OnOk};
ghost use Rattle.sol_model.specs.Families.{HoldsRow};
ghost use Rattle.side_reports.specs.whole_rows.Expanded.{row_words, words_of};

use pta_base::OutOfMemory;
use sol_model::Rows;
use std::alloc::{AllocError, Global};

/// Adds the words of a row.
fn add_row(words: &mut Vec<u64>, rows: &Rows, row: u32) -> Result<(), AllocError>
    requires { HoldsRow rows.now row }
    ensures { OnOk result (words.new.items ≡ words.old.items ++ row_words rows.now row) }
{
    let width = rows.width as usize;
    let first = row as usize * width;
    words.extend_from_slice(&rows.words.as_slice()[first..first + width])
}

/// The words of these rows, one after another.
pub(in crate::whole_rows) fn words_of(
    alloc: Global,
    rows: &Rows,
    list: &[u32],
) -> Result<Vec<u64>, OutOfMemory>
    requires { All (HoldsRow rows.now) list.now }
    ensures { IfOk result (λ words. words.items ≡ words_of rows.now list.now) }
{
    let mut words = Vec::new(alloc);
    for row in list {
        add_row(&mut words, rows, *row)?;
    }
    Ok(words)
}

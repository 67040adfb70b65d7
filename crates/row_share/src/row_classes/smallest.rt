//! The smallest row of each class.
ghost use Rattle.std.specs.Prelude.{◌≡◌, ℕ, ◌<◌, Some, None, [], length, slice_index_or, unwrap_or, OnOk, IfOk};
ghost use Rattle.sol_model.specs.Systems.{IsValid};
ghost use Rattle.row_share.specs.share_laws.Classes.{AreClasses};
ghost use Rattle.row_share.specs.share_laws.Gathered.{class_of, HasClass, AreFirst};

use crate::row_classes::copies::{copies, copies_back};
use crate::row_classes::gather::classes;
use crate::row_classes::inflow::inflows;
use crate::row_classes::onward::{copies_lead_on, first_rows};
use crate::row_classes::order::leaving_order;
use pta_base::OutOfMemory;
use sol_model::System;
use std::alloc::Global;

/// The class of a row, which has one.
fn class_at(classes: &[Option<u32>], row: u32) -> u32
    requires { HasClass classes.now row }
    ensures { class_of classes.now row ≡ Some result }
{
    match classes[row as usize] {
        Some(class) => class,
        None => row,
    }
}

/// The first row so far of a class, which is this row where there was none.
fn least_of(first: &[Option<u32>], class: u32, row: u32) -> u32
    requires { class < length first.now }
    ensures { result ≡ unwrap_or (slice_index_or first.now class None) row }
{
    match first[class as usize] {
        Some(least) => least,
        None => row,
    }
}

/// Puts down the first rows of classes, by row and by class.
fn put_first(
    rows: &mut Vec<u32>,
    first: &mut [Option<u32>],
    classes: &[Option<u32>],
    count: u32,
) -> Result<(), OutOfMemory>
    requires count { length classes.now ≡ count }
    requires all { (row : ℕ) → row < length classes.now → HasClass classes.now row }
    requires known { (row class : ℕ) → class_of classes.now row ≡ Some class → class < length classes.now }
    requires sized { length first.old ≡ length classes.now }
    requires none { (class : ℕ) → slice_index_or first.old class None ≡ None }
    requires empty { rows.old.items ≡ [] }
    ensures { OnOk result (AreFirst classes.now rows.new.items) }
{
    for row in 0..count {
        let class = class_at(classes, row);
        let least = least_of(first, class, row);
        first[class as usize] = Some(least);
        rows.push(least)?;
    }
    Ok(())
}

/// For each row the first row with the same class.
fn smallest(alloc: Global, classes: &[Option<u32>], count: u32) -> Result<Vec<u32>, OutOfMemory>
    requires count { length classes.now ≡ count }
    requires all { (row : ℕ) → row < length classes.now → HasClass classes.now row }
    requires known { (row class : ℕ) → class_of classes.now row ≡ Some class → class < length classes.now }
    ensures { IfOk result (λ rows. AreFirst classes.now rows.items) }
{
    let mut first: Vec<Option<u32>> = vec![in alloc; None; classes.len()]?;
    let mut rows = Vec::new(alloc);
    put_first(&mut rows, &mut first, classes, count)?;
    Ok(rows)
}

/// For each row of a system the smallest row of its class. Where copies lead on alone, as in the systems of programs, one pass over the
/// rows gives it, and no row is searched from. The only error is want of memory.
pub fn representatives(alloc: Global, system: &System) -> Result<Vec<u32>, OutOfMemory>
    requires valid { IsValid system.now }
    ensures { IfOk result (λ rows. AreClasses system.now rows.items) }
{
    let inflows = inflows(alloc, system)?;
    if copies_lead_on(system) {
        return first_rows(alloc, system, &inflows);
    }
    let copies = copies(alloc, system)?;
    let order = leaving_order(alloc, system, &copies)?;
    let back = copies_back(alloc, system)?;
    let classes = classes(alloc, system, &order, &back, &inflows)?;
    smallest(alloc, &classes, system.rows)
}

//! The rows in the order in which a search in depth along copies leaves them.
ghost use Rattle.std.specs.Prelude.{◌≡◌, ℕ, ◌+◌, ◌*◌, ◌≤◌, ◌<◌, true, false, [], ◌∷◌, ◌++◌, length, All, OnOk, IfOk};
ghost use Rattle.std.specs.Prelude.{IfSome, IfNone, slice_index, slice_set};
ghost use Rattle.sol_model.specs.Systems.{IsValid, IsRow};
ghost use Rattle.edge_book.specs.Leaving.{targets_of};
ghost use Rattle.row_share.specs.share_laws.Orders.{AreTargets, IsOrder, IsSearch, is_seen, unseen};

use edge_book::PairBook;
use pta_base::OutOfMemory;
use sol_model::System;
use std::alloc::Global;

/// Whether a row was seen.
fn is_seen(seen: &[bool], row: u32) -> bool
    requires { row < length seen.now }
    ensures { result ≡ is_seen seen.now row }
{
    seen[row as usize]
}

/// Where the first row that wasn't seen stands, from a place on.
fn first_unseen(rows: &[u32], seen: &[bool], from: usize) -> Option<usize>
    requires { All (λ row. row < length seen.now) rows.now }
    ensures within { IfSome result (λ at. at < length rows.now) }
    ensures found { IfSome result (λ at. is_seen seen.now (slice_index rows.now at) ≡ false) }
    ensures before { IfSome result (λ at. (k : ℕ) → from ≤ k → k < at → is_seen seen.now (slice_index rows.now k) ≡ true) }
    ensures none { IfNone result ((k : ℕ) → from ≤ k → k < length rows.now → is_seen seen.now (slice_index rows.now k) ≡ true) }
{
    for i in from..rows.len() {
        if !is_seen(seen, rows[i]) {
            return Some(i);
        }
    }
    None
}

/// Puts a row at the end of the path, as seen.
fn enter(path: &mut Vec<(u32, usize)>, seen: &mut [bool], row: u32) -> Result<(), OutOfMemory>
    requires { row < length seen.old }
    ensures seen { seen.new ≡ slice_set seen.old row true }
    ensures path { OnOk result (path.new.items ≡ path.old.items ++ (row, 0) ∷ []) }
{
    seen[row as usize] = true;
    path.push((row, 0))?;
    Ok(())
}

/// Goes on from a row, of whose copies so many lead to rows that were seen: along the first that leads to another one, or,
/// where there is none, the row is left.
fn advance(
    system: &System,
    order: &mut Vec<u32>,
    path: &mut Vec<(u32, usize)>,
    seen: &mut [bool],
    copies: &PairBook,
    row: u32,
    next: usize,
) -> Result<(), OutOfMemory>
    requires valid { IsValid system.now }
    requires copies { AreTargets system.now (λ row. targets_of row copies.now) }
    requires search { IsSearch system.now (λ row. targets_of row copies.now) order.old.items (path.old.items ++ (row, next) ∷ []) seen.old }
    ensures search { OnOk result (IsSearch system.now (λ row. targets_of row copies.now) order.new.items path.new.items seen.new) }
    ensures kept { (other : ℕ) → is_seen seen.old other ≡ true → is_seen seen.new other ≡ true }
    ensures smaller { OnOk result (2 * unseen seen.new + length path.new.items ≤ 2 * unseen seen.old + length path.old.items) }
{
    let targets = copies.targets(row);
    match first_unseen(targets, seen, next) {
        Some(at) => {
            let target = targets[at];
            path.push((row, at))?;
            enter(path, seen, target)
        }
        None => {
            order.push(row)?;
            Ok(())
        }
    }
}

/// Goes from a row along copies to rows that weren't seen, and puts each at the end of the order when it is left. The path
/// is empty before and after; it has each row with how many of its copies lead to rows that were seen.
fn visit(
    system: &System,
    order: &mut Vec<u32>,
    path: &mut Vec<(u32, usize)>,
    seen: &mut [bool],
    copies: &PairBook,
    root: u32,
) -> Result<(), OutOfMemory>
    requires valid { IsValid system.now }
    requires copies { AreTargets system.now (λ row. targets_of row copies.now) }
    requires search { IsSearch system.now (λ row. targets_of row copies.now) order.old.items [] seen.old }
    requires empty { path.old.items ≡ [] }
    requires root { IsRow system.now root }
    ensures search { OnOk result (IsSearch system.now (λ row. targets_of row copies.now) order.new.items [] seen.new) }
    ensures empty { OnOk result (path.new.items ≡ []) }
    ensures root { OnOk result (is_seen seen.new root ≡ true) }
    ensures kept { OnOk result ((other : ℕ) → is_seen seen.old other ≡ true → is_seen seen.new other ≡ true) }
{
    if is_seen(seen, root) {
        return Ok(());
    }
    enter(path, seen, root)?;
    while let Some((row, next)) = path.pop() {
        advance(system, order, path, seen, copies, row, next)?;
    }
    Ok(())
}

/// Goes from each row that wasn't seen.
fn visit_all(
    system: &System,
    order: &mut Vec<u32>,
    path: &mut Vec<(u32, usize)>,
    seen: &mut [bool],
    copies: &PairBook,
) -> Result<(), OutOfMemory>
    requires valid { IsValid system.now }
    requires copies { AreTargets system.now (λ row. targets_of row copies.now) }
    requires sized { length seen.old ≡ system.now.rows }
    requires none { (row : ℕ) → is_seen seen.old row ≡ false }
    requires empty { path.old.items ≡ [] }
    requires order { order.old.items ≡ [] }
    ensures { OnOk result (IsOrder system.now order.new.items) }
{
    for root in 0..system.rows {
        visit(system, order, path, seen, copies, root)?;
    }
    Ok(())
}

/// All rows in the order in which a search in depth along copies leaves them.
pub(in crate::row_classes) fn leaving_order(
    alloc: Global,
    system: &System,
    copies: &PairBook,
) -> Result<Vec<u32>, OutOfMemory>
    requires valid { IsValid system.now }
    requires copies { AreTargets system.now (λ row. targets_of row copies.now) }
    ensures { IfOk result (λ order. IsOrder system.now order.items) }
{
    let mut order = Vec::new(alloc);
    let mut path = Vec::new(alloc);
    let mut seen = vec![in alloc; false; system.rows as usize]?;
    visit_all(system, &mut order, &mut path, &mut seen, copies)?;
    Ok(order)
}

//! Rows by class: against copies, from the row that the search left last.
ghost use Rattle.std.specs.Prelude.{◌≡◌, ℕ, ◌+◌, ◌*◌, ◌≤◌, ◌<◌, None, List, Option, [], ◌∷◌, length, MatchBool, OnOk, IfOk, slice_index};
ghost use Rattle.sol_model.specs.Systems.{IsValid, IsRow};
ghost use Rattle.edge_book.specs.Leaving.{targets_of};
ghost use Rattle.row_share.specs.share_laws.Orders.{AreSources, IsOrder};
ghost use Rattle.row_share.specs.share_laws.Gathered.{class_of, HasClass, IsClosedBack, IsGathering, IsUnderWay};
ghost use Rattle.row_share.specs.share_laws.Gathered.{ArePartly, IsClassFor, Gives, unclassed};
ghost use Rattle.row_share.specs.row_classes.Flowing.{AreInflows};

use crate::row_classes::inflow::{Inflow, followed};
use edge_book::PairBook;
use pta_base::OutOfMemory;
use sol_model::System;
use std::alloc::Global;

/// Whether a row has a class.
fn has_class(classes: &[Option<u32>], row: u32) -> bool
    requires { row < length classes.now }
    ensures { MatchBool result (HasClass classes.now row) (class_of classes.now row ≡ None) }
{
    match classes[row as usize] {
        Some(_) => true,
        None => false,
    }
}

/// Gives a class to a row that has none, and puts it on the list of rows to go on from.
fn give(
    classes: &mut [Option<u32>],
    waiting: &mut Vec<u32>,
    row: u32,
    class: u32,
) -> Result<(), OutOfMemory>
    requires { row < length classes.old }
    ensures { OnOk result (Gives class row classes.old classes.new waiting.old.items waiting.new.items) }
{
    if has_class(classes, row) {
        return Ok(());
    }
    classes[row as usize] = Some(class);
    waiting.push(row)?;
    Ok(())
}

/// Gives a class to those of the rows that lead to a row that have none.
fn mark(
    system: &System,
    classes: &mut [Option<u32>],
    waiting: &mut Vec<u32>,
    copies_back: &PairBook,
    row: u32,
    class: u32,
) -> Result<(), OutOfMemory>
    requires valid { IsValid system.now }
    requires copies { AreSources system.now (λ row. targets_of row copies_back.now) }
    requires sized { length classes.old ≡ system.now.rows }
    ensures way { OnOk result ((order : List ℕ) (last : ℕ) (oldest : List (Option ℕ)) →
        IsUnderWay system.now order last class oldest classes.old (row ∷ waiting.old.items) →
        IsUnderWay system.now order last class oldest classes.new waiting.new.items) }
    ensures smaller { OnOk result (
        2 * unclassed classes.new + length waiting.new.items ≤ 2 * unclassed classes.old + length waiting.old.items) }
{
    let sources = copies_back.targets(row);
    for source in sources {
        give(classes, waiting, *source, class)?;
    }
    Ok(())
}

/// Gives a class to the row at a place of the order, and to all that reach it and have none. `waiting` is empty before and
/// after.
fn gather(
    system: &System,
    classes: &mut [Option<u32>],
    waiting: &mut Vec<u32>,
    copies_back: &PairBook,
    order: &[u32],
    last: usize,
    class: u32,
) -> Result<(), OutOfMemory>
    requires valid { IsValid system.now }
    requires copies { AreSources system.now (λ row. targets_of row copies_back.now) }
    requires order { IsOrder system.now order.now }
    requires last { last < length order.now }
    requires sized { length classes.old ≡ system.now.rows }
    requires after { (i : ℕ) → last < i → i < length order.now → HasClass classes.old (slice_index order.now i) }
    requires none { class_of classes.old (slice_index order.now last) ≡ None }
    requires closed { IsClosedBack system.now classes.old }
    requires empty { waiting.old.items ≡ [] }
    ensures gathered { OnOk result (IsGathering system.now order.now last class classes.old classes.new []) }
    ensures empty { OnOk result (waiting.new.items ≡ []) }
{
    give(classes, waiting, order[last], class)?;
    while let Some(row) = waiting.pop() {
        mark(system, classes, waiting, copies_back, row, class)?;
    }
    Ok(())
}

/// The class of the row that a row follows, where it has one; else the row itself.
fn class_for(system: &System, classes: &[Option<u32>], inflows: &[Inflow], row: u32) -> u32
    requires valid { IsValid system.now }
    requires inflows { AreInflows system.now inflows.now }
    requires sized { length classes.now ≡ system.now.rows }
    requires row { IsRow system.now row }
    ensures { IsClassFor system.now classes.now row result }
{
    match followed(system, inflows, row) {
        Some(from) => match classes[from as usize] {
            Some(class) => class,
            None => row,
        },
        None => row,
    }
}

/// Gives the row at a place of the order a class, and all that reach it and have none the same one. All behind it have
/// classes.
fn classify(
    system: &System,
    classes: &mut [Option<u32>],
    waiting: &mut Vec<u32>,
    copies_back: &PairBook,
    inflows: &[Inflow],
    order: &[u32],
    last: usize,
) -> Result<(), OutOfMemory>
    requires valid { IsValid system.now }
    requires copies { AreSources system.now (λ row. targets_of row copies_back.now) }
    requires inflows { AreInflows system.now inflows.now }
    requires order { IsOrder system.now order.now }
    requires last { last < length order.now }
    requires partly { ArePartly system.now classes.old }
    requires after { (i : ℕ) → last < i → i < length order.now → HasClass classes.old (slice_index order.now i) }
    requires empty { waiting.old.items ≡ [] }
    ensures partly { OnOk result (ArePartly system.now classes.new) }
    ensures after { OnOk result ((i : ℕ) → last ≤ i → i < length order.now → HasClass classes.new (slice_index order.now i)) }
    ensures empty { OnOk result (waiting.new.items ≡ []) }
{
    let root = order[last];
    if has_class(classes, root) {
        return Ok(());
    }
    let class = class_for(system, classes, inflows, root);
    gather(system, classes, waiting, copies_back, order, last, class)
}

/// Gives each row a class.
fn classify_all(
    system: &System,
    classes: &mut [Option<u32>],
    waiting: &mut Vec<u32>,
    copies_back: &PairBook,
    inflows: &[Inflow],
    order: &[u32],
) -> Result<(), OutOfMemory>
    requires valid { IsValid system.now }
    requires copies { AreSources system.now (λ row. targets_of row copies_back.now) }
    requires inflows { AreInflows system.now inflows.now }
    requires order { IsOrder system.now order.now }
    requires partly { ArePartly system.now classes.old }
    requires empty { waiting.old.items ≡ [] }
    ensures partly { OnOk result (ArePartly system.now classes.new) }
    ensures all { OnOk result ((row : ℕ) → IsRow system.now row → HasClass classes.new row) }
{
    for done in 0..order.len() {
        let last = order.len() - 1 - done;
        classify(system, classes, waiting, copies_back, inflows, order, last)?;
    }
    Ok(())
}

/// For each row one row of its class, the same for all rows of a class: Sharir's algorithm for cycles (1981). A row that
/// stands in no cycle has the class of the row that it follows.
pub(in crate::row_classes) fn classes(
    alloc: Global,
    system: &System,
    order: &[u32],
    copies_back: &PairBook,
    inflows: &[Inflow],
) -> Result<Vec<Option<u32>>, OutOfMemory>
    requires valid { IsValid system.now }
    requires copies { AreSources system.now (λ row. targets_of row copies_back.now) }
    requires inflows { AreInflows system.now inflows.now }
    requires order { IsOrder system.now order.now }
    ensures partly { IfOk result (λ classes. ArePartly system.now classes.items) }
    ensures all { IfOk result (λ classes. (row : ℕ) → IsRow system.now row → HasClass classes.items row) }
{
    let mut classes = vec![in alloc; None; system.rows as usize]?;
    let mut waiting = Vec::new(alloc);
    classify_all(
        system,
        &mut classes,
        &mut waiting,
        copies_back,
        inflows,
        order,
    )?;
    Ok(classes)
}

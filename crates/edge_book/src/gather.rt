//! Lists of pairs of rows.
ghost use Rattle.std.specs.Prelude.{◌≡◌, ℕ, Some, IfSome, OnOk, All, Contains, zip};
ghost use Rattle.sol_model.specs.Rules.{AreJoined, PairEdge};
ghost use Rattle.sol_model.specs.Systems.{IsValid, IsRow, IsLocation};
ghost use Rattle.edge_book.specs.Edges.{Gains};

use pta_base::{Listing, OutOfMemory};
use sol_model::System;
use sol_model::locations::{pair_at, pair_count};
use sol_model::sites::{row_at, rows_at};

/// One pair.
pub fn put(pairs: &mut Vec<(u32, u32)>, from: u32, to: u32) -> Result<(), OutOfMemory>
    ensures { OnOk result (Gains pairs.old.items pairs.new.items (λ a b. (a ≡ from) × (b ≡ to))) }
{
    pairs.push((from, to))?;
    Ok(())
}

/// One pair, where both rows are there.
pub fn put_between(
    pairs: &mut Vec<(u32, u32)>,
    from: Option<u32>,
    to: Option<u32>,
) -> Result<(), OutOfMemory>
    ensures { OnOk result (Gains pairs.old.items pairs.new.items (λ a b. (from ≡ Some a) × (to ≡ Some b))) }
{
    if let (Some(source), Some(target)) = (from, to) {
        put(pairs, source, target)?;
    }
    Ok(())
}

/// Rows of two lists, place by place.
pub(crate) fn put_row_pairs(
    pairs: &mut Vec<(u32, u32)>,
    system: &System,
    from: &[u32],
    to: &[u32],
) -> Result<(), OutOfMemory>
    requires from { All (IsRow system.now) from.now }
    requires to { All (IsRow system.now) to.now }
    ensures { OnOk result (Gains pairs.old.items pairs.new.items (λ a b. Contains (zip from.now to.now) (a, b))) }
{
    for i in 0..from.len().min(to.len()) {
        put(pairs, row_at(system, from, i), row_at(system, to, i))?;
    }
    Ok(())
}

/// Lists of rows, place by place.
pub(crate) fn put_joined(
    pairs: &mut Vec<(u32, u32)>,
    system: &System,
    from: &[Listing<u32>],
    to: &[Listing<u32>],
) -> Result<(), OutOfMemory>
    requires from { All (λ rows. All (IsRow system.now) rows) from.now }
    requires to { All (λ rows. All (IsRow system.now) rows) to.now }
    ensures { OnOk result (Gains pairs.old.items pairs.new.items (AreJoined from.now to.now)) }
{
    for i in 0..from.len().min(to.len()) {
        let sources = rows_at(system, from, i);
        let targets = rows_at(system, to, i);
        put_row_pairs(pairs, system, sources, targets)?;
    }
    Ok(())
}

/// The nodes that a copy of one whole object to another joins, where both are there.
pub(crate) fn put_objects(
    pairs: &mut Vec<(u32, u32)>,
    system: &System,
    to: Option<u32>,
    from: Option<u32>,
) -> Result<(), OutOfMemory>
    requires valid { IsValid system.now }
    requires to { IfSome to (IsLocation system.now) }
    requires from { IfSome from (IsLocation system.now) }
    ensures { OnOk result
        (Gains pairs.old.items pairs.new.items
        (λ a b. (target : ℕ) × (source : ℕ) × (to ≡ Some target) × (from ≡ Some source)
        × PairEdge system.now target source a b)) }
{
    if let (Some(target), Some(source)) = (to, from) {
        put_copy(pairs, system, target, source)?;
    }
    Ok(())
}

/// The nodes that a copy of one whole object to another joins: for each pair, the node that is copied from and the node
/// that is copied to.
pub fn put_copy(
    pairs: &mut Vec<(u32, u32)>,
    system: &System,
    to: u32,
    from: u32,
) -> Result<(), OutOfMemory>
    requires valid { IsValid system.now }
    requires to { IsLocation system.now to }
    requires from { IsLocation system.now from }
    ensures { OnOk result (Gains pairs.old.items pairs.new.items (PairEdge system.now to from)) }
{
    for i in 0..pair_count(system, to, from) {
        let (at, of) = pair_at(system, to, from, i);
        put(pairs, of, at)?;
    }
    Ok(())
}

// Cells in the order of their paths.

ghost use Rattle.std.specs.Prelude.{◌≡◌, ◌+◌, ◌<◌, ◌≤◌, ◌^◌, ◌++◌, OnOk, OnErr, filter, take, drop, length, not};
ghost use Rattle.ref_cells.specs.Cells.{step_key, head_key, seen, under, below, above, is_below, Begins, IsPart};
ghost use Rattle.ref_cells.specs.Order.{IsOrdered};

use crate::cells::{Cell, Path};
use c_types::term::{OutOfMemory, PathStep};

// A step as a number.
fn step_key(step: PathStep) -> u128
    ensures key { result ≡ step_key step }
    ensures within { result < 2 ^ 66 }
{
    match step {
        PathStep::Index(i) => 2 * u128::from(i) + 1,
        PathStep::Member(k) => 2 * u128::from(k) + 2,
    }
}

// The step of a path at a depth as a number, 0 where the path ends there.
fn key_at(path: &[PathStep], depth: usize) -> u128
    ensures { result ≡ head_key (drop depth path.now) }
{
    match path.get(depth) {
        Some(step) => step_key(*step),
        None => 0,
    }
}

// How many cells stand before a number at a depth.
fn before(cells: &[(Path, Cell)], depth: usize, key: u128) -> usize
    requires { IsOrdered (seen depth cells.now) }
    ensures within { result ≤ length cells.now }
    ensures below { filter (is_below key) (seen depth cells.now) ≡ seen depth (take result cells.now) }
    ensures rest { filter (λ e. not (is_below key e)) (seen depth cells.now) ≡ seen depth (drop result cells.now) }
{
    cells.partition_point(|e| key_at(e.0.as_slice(), depth) < key)
}

// The cells from a place on.
fn from(cells: &[(Path, Cell)], at: usize) -> &[(Path, Cell)]
    requires { at ≤ length cells.now }
    ensures { result.now ≡ drop at cells.now }
{
    &cells[at..]
}

// The cells up to a place.
fn up_to(cells: &[(Path, Cell)], at: usize) -> &[(Path, Cell)]
    requires { at ≤ length cells.now }
    ensures { result.now ≡ take at cells.now }
{
    &cells[..at]
}

/// Where the cells under a step begin, and those cells, of cells that stand in order from a depth on.
pub fn part_under<'a>(
    cells: &'a [(Path, Cell)],
    depth: usize,
    step: PathStep,
) -> (usize, &'a [(Path, Cell)])
    requires { IsOrdered (seen depth cells.now) }
    ensures cells { seen (depth + 1) result.1.now ≡ under step (seen depth cells.now) }
    ensures ordered { IsOrdered (seen (depth + 1) result.1.now) }

    // They are a part of the list, between what stands before the step and what stands behind it.
    ensures part { IsPart cells.now result.0 result.1.now }
    ensures below { seen depth (take result.0 cells.now) ≡ below step (seen depth cells.now) }
    ensures above { seen depth (drop (result.0 + length result.1.now) cells.now) ≡ above step (seen depth cells.now) }
    ensures begins { Begins step depth result.1.now }
{
    let key = step_key(step);
    let start = before(cells, depth, key);
    let rest = from(cells, start);
    (start, up_to(rest, before(rest, depth, key + 1)))
}

/// The cells under a step.
pub fn under<'a>(cells: &'a [(Path, Cell)], depth: usize, step: PathStep) -> &'a [(Path, Cell)]
    requires { IsOrdered (seen depth cells.now) }
    ensures cells { seen (depth + 1) result.now ≡ under step (seen depth cells.now) }
    ensures ordered { IsOrdered (seen (depth + 1) result.now) }
{
    part_under(cells, depth, step).1
}

/// Puts cells in place of those from one place to another. Want of memory leaves the list as it was.
pub fn replace(
    list: &mut Vec<(Path, Cell)>,
    from: usize,
    to: usize,
    inside: Vec<(Path, Cell)>,
) -> Result<(), OutOfMemory>
    requires order { from ≤ to }
    requires within { to ≤ length list.old.items }
    ensures ok { OnOk result (list.new.items ≡ take from list.old.items ++ inside.items ++ drop to list.old.items) }
    ensures err { OnErr result (list.new.items ≡ list.old.items) }
{
    let _gone = list.splice(from..to, inside)?;
    Ok(())
}

//! From a system to its least solution.
ghost use Rattle.std.specs.Prelude.{◌<◌, ◌≤◌, IfOk};
ghost use Rattle.sol_model.specs.Families.{members};
ghost use Rattle.sol_model.specs.Solutions.{IsLeast};
ghost use Rattle.sol_model.specs.Systems.{IsValid, Fits};
ghost use Rattle.unit_report.specs.Solved.{IsSolvedShared};

use crate::whole_rows::words::words_of;
use pta_base::{Gate, Listing, OutOfMemory};
use row_share::{reduce, share};
use sol_model::{Rows, System};
use std::alloc::Global;
use std::thread::Threads;
use unit_report::{Solved, solve_on_rows};

/// The least solution of a system, with what was solved for it by so many workers on shared rows, each of whom passes the gate before
/// each of its pieces: a system with one row for all rows of a class (`row_share`), whose rows are then given to each row of the class. The
/// one error is want of memory.
pub fn whole_solution<R: Threads + Sync, G: Gate + Sync>(
    rt: &R,
    alloc: Global,
    system: &System,
    workers: u32,
    gate: &G,
) -> Result<(Rows, Solved), OutOfMemory>
    requires valid { IsValid system.now }
    requires workers { (0 < workers) × (workers ≤ 64) }
    ensures fits { IfOk result (λ found. Fits system.now found.0) }
    ensures least { IfOk result (λ found. IsLeast system.now (members found.0)) }
    ensures solved { IfOk result (λ found. IsSolvedShared system.now found.1) }
{
    let classes = share(alloc, system)?;
    let reduced = reduce(alloc, system, &classes)?;
    let (rows, solved) = solve_on_rows(rt, alloc, reduced.system, workers, gate)?;
    let words = words_of(alloc, &rows, reduced.row.as_slice())?;
    let whole = Rows {
        width: rows.width,
        words: Listing::of(words),
    };
    Ok((whole, solved))
}

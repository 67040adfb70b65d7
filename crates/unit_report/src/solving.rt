//! Solving a system on rows that workers share.
ghost use Rattle.std.specs.Prelude.{◌<◌, ◌≤◌, IfOk};
ghost use Rattle.sol_model.specs.Families.{members};
ghost use Rattle.sol_model.specs.Solutions.{IsLeast};
ghost use Rattle.sol_model.specs.Systems.{IsValid, Fits};
ghost use Rattle.unit_report.specs.Solved.{IsSolved, solved_on};

use pta_base::{Gate, OutOfMemory};
use set_rows::{RowSeat, RowTable};
use sol_model::{Rows, System};
use std::alloc::Global;
use std::thread::Threads;
use work_rounds::solve;

/// A system that was solved, its table of shared rows, which is closed, and the seat into which every other seat of the
/// table was joined.
#[derive(Drop)]
pub struct Solved {
    pub system: System,
    pub table: RowTable,
    pub seat: RowSeat,
}

/// The least solution of a system that is lent, and the table and the seat with which it was solved.
fn solved_rows<R: Threads + Sync, G: Gate + Sync>(
    rt: &R,
    alloc: Global,
    system: &System,
    workers: u32,
    gate: &G,
) -> Result<(Rows, RowTable, RowSeat), OutOfMemory>
    requires valid { IsValid system.now }
    requires workers { (0 < workers) × (workers ≤ 64) }
    ensures fits { IfOk result (λ found. Fits system.now found.0) }
    ensures least { IfOk result (λ found. IsLeast system.now (members found.0)) }
    ensures solved { IfOk result (λ found. IsSolved system.now (solved_on system.now found.1 found.2)) }
{
    let (table, mut seat) = RowTable::new(alloc, system)?;
    solve(rt, alloc, system, &table, &mut seat, workers, gate)?;
    let rows = table.copy_rows(alloc, &mut seat)?;
    Ok((rows, table, seat))
}

/// Solves a system by workers on shared rows: its least solution, and the table and the seat with which it was solved
/// (Méndez-Lojo, Mathew and Pingali 2010). The one error is want of memory.
pub fn solve_on_rows<R: Threads + Sync, G: Gate + Sync>(
    rt: &R,
    alloc: Global,
    system: System,
    workers: u32,
    gate: &G,
) -> Result<(Rows, Solved), OutOfMemory>
    requires valid { IsValid system }
    requires workers { (0 < workers) × (workers ≤ 64) }
    ensures fits { IfOk result (λ found. Fits system found.0) }
    ensures least { IfOk result (λ found. IsLeast system (members found.0)) }
    ensures solved { IfOk result (λ found. IsSolved system found.1) }
{
    let (rows, table, seat) = solved_rows(rt, alloc, &system, workers, gate)?;
    Ok((
        rows,
        Solved {
            system,
            table,
            seat,
        },
    ))
}

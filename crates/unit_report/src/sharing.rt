//! The system that is solved in place of a program's.
ghost use Rattle.std.specs.Prelude.{IfOk};
ghost use Rattle.sol_model.specs.Systems.{IsValid};
ghost use Rattle.unit_report.specs.Solved.{IsShared};

use pta_base::OutOfMemory;
use row_share::{reduce, share};
use sol_model::System;
use std::alloc::Global;

/// The system with one row for all rows of a class.
fn reduced_by(alloc: Global, system: &System) -> Result<System, OutOfMemory>
    requires { IsValid system.now }
    ensures shared { IfOk result (IsShared system.now) }
    ensures valid { IfOk result IsValid }
{
    let classes = share(alloc, system)?;
    let reduced = reduce(alloc, system, &classes)?;
    Ok(reduced.system)
}

/// A system with one row for all rows of a class. The other system is let go, so that no table of rows stands in memory beside it. The
/// only error is want of memory.
pub(crate) fn shared(alloc: Global, system: System) -> Result<System, OutOfMemory>
    requires { IsValid system }
    ensures shared { IfOk result (IsShared system) }
    ensures valid { IfOk result IsValid }
{
    reduced_by(alloc, &system)
}

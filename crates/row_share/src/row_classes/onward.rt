//! The smallest row of each class in one pass, where copies lead on alone and so round no cycle, as in the systems of programs.
ghost use Rattle.std.specs.Prelude.{◌≡◌, ◌↔◌, IsTrue, length, IfOk};
ghost use Rattle.sol_model.specs.Systems.{IsValid, IsRow};
ghost use Rattle.row_share.specs.share_laws.Classes.{AreClasses};
ghost use Rattle.row_share.specs.share_laws.Onward.{LeadsOn, CopiesLeadOn, IsFirstOf};
ghost use Rattle.row_share.specs.row_classes.Flowing.{AreInflows};

use crate::row_classes::inflow::{Inflow, followed};
use pta_base::OutOfMemory;
use sol_model::sites::constraint_at;
use sol_model::{Constraint, System};
use std::alloc::Global;

/// Whether a constraint is no copy, or one from no location's row to a location's row or a later one.
fn leads_on(constraint: Constraint, locations: u32) -> bool
    ensures { IsTrue result ↔ LeadsOn locations constraint }
{
    match constraint {
        Constraint::Copy { from, to } => from >= locations && (to < locations || from < to),
        _ => true,
    }
}

/// Whether each copy of a system is such a one.
pub(in crate::row_classes) fn copies_lead_on(system: &System) -> bool
    requires { IsValid system.now }
    ensures { IsTrue result ↔ CopiesLeadOn system.now }
{
    let locations = system.locations.len() as u32;
    for i in 0..system.constraints.len() {
        if !leads_on(constraint_at(system, i), locations) {
            return false;
        }
    }
    true
}

/// The first row of a row's class: that of the row that it follows, or itself. Those of all rows before it are known.
fn first_of(system: &System, inflows: &[Inflow], rows: &[u32], row: u32) -> u32
    requires valid { IsValid system.now }
    requires inflows { AreInflows system.now inflows.now }
    requires onward { CopiesLeadOn system.now }
    requires row { IsRow system.now row }
    requires before { length rows.now ≡ row }
    ensures { IsFirstOf system.now rows.now row result }
{
    match followed(system, inflows, row) {
        Some(from) => rows[from as usize],
        None => row,
    }
}

/// For each row the smallest row of its class, where copies lead on alone.
pub(in crate::row_classes) fn first_rows(
    alloc: Global,
    system: &System,
    inflows: &[Inflow],
) -> Result<Vec<u32>, OutOfMemory>
    requires valid { IsValid system.now }
    requires inflows { AreInflows system.now inflows.now }
    requires onward { CopiesLeadOn system.now }
    ensures { IfOk result (λ rows. AreClasses system.now rows.items) }
{
    let mut rows: Vec<u32> = Vec::new(alloc);
    for row in 0..system.rows {
        let first = first_of(system, inflows, rows.as_slice(), row);
        rows.push(first)?;
    }
    Ok(rows)
}

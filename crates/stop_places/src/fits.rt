// Which members of rows fit a type.

ghost use Rattle.std.specs.Prelude.{◌≡◌, ◌↔◌, not, IfOk, IsTrue};
ghost use Rattle.std.specs.List.{list_any};
ghost use Rattle.sol_model.specs.Families.{members};
ghost use Rattle.sol_model.specs.Systems.{IsValid, Fits, IsRow};
ghost use Rattle.stop_places.specs.Fits.{fits, HasMisfit};

use call_graph::row_members::members_of;
use pta_base::OutOfMemory;
use sol_model::{Rows, System};
use std::alloc::Global;

// Whether a location fits the type of a number.
fn fits(system: &System, number: u32, location: u32) -> bool
    ensures { result ≡ fits system.now number location }
{
    match system.locations.as_slice().get(location as usize) {
        Some(fact) => !fact.collapsed && fact.ty == number,
        None => false,
    }
}

// Whether one of these locations doesn't fit the type of a number.
fn any_misfit(system: &System, number: u32, locations: &[u32]) -> bool
    ensures { result ≡ list_any (λ l. not (fits system.now number l)) locations.now }
{
    locations.iter().any(|l| !fits(system, number, *l))
}

/// Whether some member of a row doesn't fit the type of a number.
pub(crate) fn has_misfit(
    alloc: Global,
    system: &System,
    rows: &Rows,
    row: u32,
    number: u32,
) -> Result<bool, OutOfMemory>
    requires valid { IsValid system.now }
    requires fits { Fits system.now rows.now }
    requires row { IsRow system.now row }
    ensures { IfOk result (λ found. IsTrue found ↔ HasMisfit system.now (members rows.now) row number) }
{
    let list = members_of(alloc, system, rows, row)?;
    Ok(any_misfit(system, number, list.as_slice()))
}

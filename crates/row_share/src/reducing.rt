//! A system with one row for all that share a set.
ghost use Rattle.std.specs.Prelude.{◌≡◌, ◌+◌, ◌++◌, map, filter, not, length, OnOk, IfOk};
ghost use Rattle.sol_model.specs.Families.{Family};
ghost use Rattle.sol_model.specs.Solutions.{IsLeast};
ghost use Rattle.sol_model.specs.Systems.{IsValid, location_count};
ghost use Rattle.row_share.specs.share_laws.Classes.{AreClasses};
ghost use Rattle.row_share.specs.share_laws.Laws.{AgreeThrough};
ghost use Rattle.row_share.specs.share_laws.Renumbering.{new_row, renumbered, renumbered_call, renumbered_function};
ghost use Rattle.row_share.specs.share_laws.Renumbering.{is_idle, twins, own_below, AreNumbers, IsReduced};

use crate::Share;
use crate::renumber::{call_of, constraint_of, function_of, list_of, new_row, types_of};
use pta_base::{Listing, OutOfMemory};
use sol_model::sites::{call_at, constraint_at, function_at};
use sol_model::{CallSite, Constraint, Function, System};
use std::alloc::Global;

/// A smaller system, and the row in it of each row of the system that it was made from.
#[derive(Drop)]
pub struct Reduced {
    /// The system.
    pub system: System,
    /// For each row of the other system the row that has its set.
    pub row: Vec<u32>,
}

/// The new numbers of all rows, and how many new rows there are.
#[derive(Drop)]
struct Numbers {
    row: Vec<u32>,
    rows: u32,
}

/// Locations keep their rows, then come the other rows that are their own representatives; each other row has the number
/// of its representative.
fn renumber(alloc: Global, system: &System, share: &Share) -> Result<Numbers, OutOfMemory>
    requires valid { IsValid system.now }
    requires classes { AreClasses system.now share.now }
    ensures numbers { IfOk result (λ numbers. AreNumbers system.now share.now numbers.row.items) }
    ensures rows { IfOk result (λ numbers.
        numbers.rows ≡ location_count system.now + own_below (location_count system.now) share.now system.now.rows) }
{
    let mut row: Vec<u32> = Vec::new(alloc);
    let locations = system.locations.len() as u32;
    let mut rows = locations;
    for old in 0..system.rows {
        let representative = share.of(old);
        if old < locations {
            row.push(old)?;
        } else if representative == old {
            row.push(rows)?;
            rows += 1;
        } else {
            let new = new_row(row.as_slice(), representative);
            row.push(new)?;
        }
    }
    Ok(Numbers { row, rows })
}

/// Whether a constraint is another than a copy from a row to itself.
fn is_busy(constraint: Constraint) -> bool
    ensures { result ≡ not (is_idle constraint) }
{
    match constraint {
        Constraint::Copy { from, to } => from != to,
        _ => true,
    }
}

/// The constraints with the new numbers, without copies from a row to itself.
fn kept(alloc: Global, system: &System, row: &[u32]) -> Result<Listing<Constraint>, OutOfMemory>
    requires valid { IsValid system.now }
    requires rows { length row.now ≡ system.now.rows }
    ensures { IfOk result (λ list.
        list ≡ filter (λ constraint. not (is_idle constraint)) (map (renumbered (new_row row.now)) system.now.constraints)) }
{
    let mut list = Listing::new(alloc);
    for i in 0..system.constraints.len() {
        let new = constraint_of(system, row, constraint_at(system, i));
        if is_busy(new) {
            list.push(new)?;
        }
    }
    Ok(list)
}

/// Adds copies both ways between each location's row and its representative, where that is another one.
fn add_twins(
    list: &mut Listing<Constraint>,
    system: &System,
    share: &Share,
) -> Result<(), OutOfMemory>
    requires valid { IsValid system.now }
    requires classes { AreClasses system.now share.now }
    ensures { OnOk result (list.new ≡ list.old ++ twins share.now (location_count system.now)) }
{
    for location in 0..system.locations.len() as u32 {
        let representative = share.of(location);
        if representative != location {
            list.push(Constraint::Copy {
                from: location,
                to: representative,
            })?;
            list.push(Constraint::Copy {
                from: representative,
                to: location,
            })?;
        }
    }
    Ok(())
}

/// The calls with the new numbers.
fn calls(alloc: Global, system: &System, row: &[u32]) -> Result<Listing<CallSite>, OutOfMemory>
    requires valid { IsValid system.now }
    requires rows { length row.now ≡ system.now.rows }
    ensures { IfOk result (λ list. list ≡ map (renumbered_call (new_row row.now)) system.now.calls) }
{
    let mut list = Listing::new(alloc);
    for i in 0..system.calls.len() {
        list.push(call_of(alloc, system, row, call_at(system, i))?)?;
    }
    Ok(list)
}

/// The functions with the new numbers.
fn functions(alloc: Global, system: &System, row: &[u32]) -> Result<Listing<Function>, OutOfMemory>
    requires valid { IsValid system.now }
    requires rows { length row.now ≡ system.now.rows }
    ensures { IfOk result (λ list. list ≡ map (renumbered_function (new_row row.now)) system.now.functions) }
{
    let mut list = Listing::new(alloc);
    for i in 0..system.functions.len() {
        list.push(function_of(alloc, system, row, function_at(system, i))?)?;
    }
    Ok(list)
}

/// The system with one row for all rows of a class, but for locations, which keep their rows. It is valid, and each row's
/// set in the least solution is that of its new row in the least solution of the new system. The only error is want of
/// memory.
pub fn reduce(alloc: Global, system: &System, share: &Share) -> Result<Reduced, OutOfMemory>
    requires valid { IsValid system.now }
    requires classes { AreClasses system.now share.now }
    ensures reduced { IfOk result (λ made. IsReduced system.now share.now made.row.items made.system) }
    ensures valid { IfOk result (λ made. IsValid made.system) }
    ensures agree { IfOk result (λ made. AgreeThrough system.now made.row.items made.system) }
    ensures least { IfOk result (λ made.
        (G : Family) → IsLeast made.system G → IsLeast system.now (λ old location. G (new_row made.row.items old) location)) }
{
    let numbers = renumber(alloc, system, share)?;
    let row = numbers.row.as_slice();
    let mut constraints = kept(alloc, system, row)?;
    add_twins(&mut constraints, system, share)?;
    let calls = calls(alloc, system, row)?;
    let functions = functions(alloc, system, row)?;
    let types = types_of(alloc, system.types.as_slice())?;
    let locations = list_of(alloc, system.locations.as_slice())?;
    Ok(Reduced {
        system: System {
            rows: numbers.rows,
            locations,
            types,
            constraints,
            calls,
            functions,
        },
        row: numbers.row,
    })
}

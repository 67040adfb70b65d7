//! Locations that are added to the row of a function.
ghost use Rattle.std.specs.Prelude.{◌≡◌, ◌↔◌, ◌+◌, ◌≤◌, ◌<◌, ℕ, All, IsFalse, IsTrue, OnOk, Contains, length};
ghost use Rattle.sol_model.specs.Families.{Has, members};
ghost use Rattle.sol_model.specs.Systems.{IsValid, Fits, IsRow, IsLocation, location_count};
ghost use Rattle.sol_model.specs.Places.{nodes_of};
ghost use Rattle.mod_ref.specs.Places.{extent_at, IsReached, IsReachedBy, IsUnder};
ghost use Rattle.mod_ref.specs.Gains.{Gains, HasRowsFor, In};

use call_graph::row_members::members_of;
use pta_base::OutOfMemory;
use sol_model::locations::location_fact;
use sol_model::{Rows, System};
use std::alloc::Global;

/// Adds a location to a row.
pub(crate) fn insert(system: &System, touched: &mut Rows, row: u32, location: u32)
    requires rows { HasRowsFor system.now touched.old }
    requires row { row < length system.now.functions }
    requires location { IsLocation system.now location }
    ensures gains { Gains touched.old touched.new (In row (λ l. l ≡ location)) }
    ensures rows { HasRowsFor system.now touched.new }
{
    if !touched.has(row, location) {
        touched.insert(row, location);
    }
}

/// How many nodes a type has; none where there is no such type.
fn nodes_of(system: &System, ty: u32) -> u32
    ensures { result ≡ nodes_of system.now ty }
{
    let types = system.types.as_slice();
    if ty as usize >= types.len() {
        return 0;
    }
    types[ty as usize].nodes
}

/// How many nodes lie under a location: it alone where it is collapsed, else those of its type.
fn extent_at(system: &System, location: u32) -> u32
    requires valid { IsValid system.now }
    requires location { IsLocation system.now location }
    ensures value { result ≡ extent_at system.now location }
    ensures within { location + result ≤ location_count system.now }
{
    let fact = location_fact(system, location);
    if fact.collapsed {
        1
    } else {
        nodes_of(system, fact.ty)
    }
}

/// Adds each node under a location.
pub(crate) fn insert_under(system: &System, touched: &mut Rows, row: u32, location: u32)
    requires valid { IsValid system.now }
    requires rows { HasRowsFor system.now touched.old }
    requires row { row < length system.now.functions }
    requires location { IsLocation system.now location }
    ensures gains { Gains touched.old touched.new (In row (IsUnder system.now location)) }
    ensures rows { HasRowsFor system.now touched.new }
{
    for i in 0..extent_at(system, location) {
        insert(system, touched, row, location + i);
    }
}

/// Whether an access of a type reaches nodes from a location, which are then all those under it.
fn leads_from(system: &System, ty: u32, location: u32) -> bool
    requires valid { IsValid system.now }
    requires location { IsLocation system.now location }
    ensures yes { IsTrue result → (node : ℕ) → IsReached system.now (Some ty) location node ↔ IsUnder system.now location node }
    ensures no { IsFalse result → (node : ℕ) → IsReached system.now (Some ty) location node → ⊥ }
{
    let fact = location_fact(system, location);
    nodes_of(system, ty) > 0 && (fact.collapsed || fact.ty == ty)
}

/// Adds each node that is reached from a location by an access of a type.
fn insert_accessed(system: &System, touched: &mut Rows, row: u32, ty: u32, location: u32)
    requires valid { IsValid system.now }
    requires rows { HasRowsFor system.now touched.old }
    requires row { row < length system.now.functions }
    requires location { IsLocation system.now location }
    ensures gains { Gains touched.old touched.new (In row (IsReached system.now (Some ty) location)) }
    ensures rows { HasRowsFor system.now touched.new }
{
    if leads_from(system, ty, location) {
        insert_under(system, touched, row, location);
    }
}

/// Adds each node that is reached from a location: by an access of a type, or without one each node under it.
fn insert_reached(system: &System, touched: &mut Rows, row: u32, ty: Option<u32>, location: u32)
    requires valid { IsValid system.now }
    requires rows { HasRowsFor system.now touched.old }
    requires row { row < length system.now.functions }
    requires location { IsLocation system.now location }
    ensures gains { Gains touched.old touched.new (In row (IsReached system.now ty location)) }
    ensures rows { HasRowsFor system.now touched.new }
{
    match ty {
        Some(ty) => insert_accessed(system, touched, row, ty, location),
        None => insert_under(system, touched, row, location),
    }
}

/// Adds what is reached from each of these locations.
fn insert_each(system: &System, touched: &mut Rows, row: u32, ty: Option<u32>, held: &[u32])
    requires valid { IsValid system.now }
    requires rows { HasRowsFor system.now touched.old }
    requires row { row < length system.now.functions }
    requires held { All (IsLocation system.now) held.now }
    ensures gains { Gains touched.old touched.new
        (In row (λ node. (location : ℕ) × Contains held.now location × IsReached system.now ty location node)) }
    ensures rows { HasRowsFor system.now touched.new }
{
    for i in 0..held.len() {
        insert_reached(system, touched, row, ty, held[i]);
    }
}

/// Adds each of these locations.
fn insert_all(system: &System, touched: &mut Rows, row: u32, held: &[u32])
    requires rows { HasRowsFor system.now touched.old }
    requires row { row < length system.now.functions }
    requires held { All (IsLocation system.now) held.now }
    ensures gains { Gains touched.old touched.new (In row (Contains held.now)) }
    ensures rows { HasRowsFor system.now touched.new }
{
    for i in 0..held.len() {
        insert(system, touched, row, held[i]);
    }
}

/// Adds the locations that a row of the solution has.
pub(crate) fn insert_members(
    alloc: Global,
    system: &System,
    rows: &Rows,
    touched: &mut Rows,
    row: u32,
    from: u32,
) -> Result<(), OutOfMemory>
    requires valid { IsValid system.now }
    requires fits { Fits system.now rows.now }
    requires rows { HasRowsFor system.now touched.old }
    requires row { row < length system.now.functions }
    requires from { IsRow system.now from }
    ensures gains { OnOk result (Gains touched.old touched.new (In row (Has (members rows.now) from))) }
    ensures rows { HasRowsFor system.now touched.new }
{
    let held = members_of(alloc, system, rows, from)?;
    insert_all(system, touched, row, held.as_slice());
    Ok(())
}

/// Adds what is reached from the locations that a row of the solution has.
pub(crate) fn insert_by(
    alloc: Global,
    system: &System,
    rows: &Rows,
    touched: &mut Rows,
    row: u32,
    ty: Option<u32>,
    from: u32,
) -> Result<(), OutOfMemory>
    requires valid { IsValid system.now }
    requires fits { Fits system.now rows.now }
    requires rows { HasRowsFor system.now touched.old }
    requires row { row < length system.now.functions }
    requires from { IsRow system.now from }
    ensures gains { OnOk result (Gains touched.old touched.new (In row (IsReachedBy system.now (members rows.now) ty from))) }
    ensures rows { HasRowsFor system.now touched.new }
{
    let held = members_of(alloc, system, rows, from)?;
    insert_each(system, touched, row, ty, held.as_slice());
    Ok(())
}

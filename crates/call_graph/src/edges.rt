// The edges of one call.
ghost use Rattle.std.specs.Prelude.{ℕ, ◌↔◌, OnOk, Contains};
ghost use Rattle.sol_model.specs.Families.{Has, members};
ghost use Rattle.sol_model.specs.Systems.{IsValid, Fits, IsCallValid, IsLocation, IsRow};
ghost use Rattle.call_graph.specs.Graph.{Gains, IsTo, IsFrom, IsBackIn, IsBackBy, IsBackAt, IsBackEdge, IsCallEdge};

use crate::row_members::members_of;
use pta_base::{Effect, OutOfMemory};
use sol_model::locations::location_fact;
use sol_model::sites::{argument_row, back_signature, effect_at, function_at};
use sol_model::{CallSite, Function, Rows, System};
use std::alloc::Global;

/// Adds a caller with the function at a location, where there is one and it has the signature.
fn add_to(
    system: &System,
    signature: u32,
    caller: u32,
    location: u32,
    edges: &mut Vec<(u32, u32)>,
) -> Result<(), OutOfMemory>
    requires valid { IsValid system.now }
    requires location { IsLocation system.now location }
    ensures { OnOk result (Gains edges.old.items edges.new.items (IsTo system.now signature caller location)) }
{
    let Some(number) = location_fact(system, location).function else {
        return Ok(());
    };
    if function_at(system, number as usize).signature != signature {
        return Ok(());
    }
    edges.push((caller, number))?;
    Ok(())
}

/// Adds a caller with each function of a signature at these locations.
fn add_all_to(
    system: &System,
    held: &[u32],
    signature: u32,
    caller: u32,
    edges: &mut Vec<(u32, u32)>,
) -> Result<(), OutOfMemory>
    requires valid { IsValid system.now }
    requires held { (location : ℕ) → Contains held.now location → IsLocation system.now location }
    ensures { OnOk result
        (Gains edges.old.items edges.new.items
        (λ a b. (location : ℕ) × Contains held.now location × IsTo system.now signature caller location a b)) }
{
    for i in 0..held.len() {
        add_to(system, signature, caller, held[i], edges)?;
    }
    Ok(())
}

/// Adds a caller with each function of a signature that a row has.
fn add_all_held(
    alloc: Global,
    system: &System,
    rows: &Rows,
    row: u32,
    signature: u32,
    caller: u32,
    edges: &mut Vec<(u32, u32)>,
) -> Result<(), OutOfMemory>
    requires valid { IsValid system.now }
    requires fits { Fits system.now rows.now }
    requires row { IsRow system.now row }
    ensures { OnOk result (Gains edges.old.items edges.new.items (IsFrom system.now (members rows.now) row signature caller)) }
{
    let held = members_of(alloc, system, rows, row)?;
    add_all_to(system, held.as_slice(), signature, caller, edges)?;
    Ok(())
}

/// Adds a library function with each function that one of its effects calls back.
fn add_back_in(
    alloc: Global,
    system: &System,
    rows: &Rows,
    call: &CallSite,
    effect: Effect,
    library: u32,
    edges: &mut Vec<(u32, u32)>,
) -> Result<(), OutOfMemory>
    requires valid { IsValid system.now }
    requires fits { Fits system.now rows.now }
    requires call { IsCallValid system.now call.now }
    ensures { OnOk result (Gains edges.old.items edges.new.items (IsBackIn system.now (members rows.now) call.now effect library)) }
{
    let Effect::CallsBack(k, passed) = effect else {
        return Ok(());
    };
    let Some(row) = argument_row(system, call, k) else {
        return Ok(());
    };
    add_all_held(
        alloc,
        system,
        rows,
        row,
        back_signature(passed),
        library,
        edges,
    )?;
    Ok(())
}

/// Adds a library function with each function that it calls back.
fn add_back_by(
    alloc: Global,
    system: &System,
    rows: &Rows,
    call: &CallSite,
    library: u32,
    function: &Function,
    edges: &mut Vec<(u32, u32)>,
) -> Result<(), OutOfMemory>
    requires valid { IsValid system.now }
    requires fits { Fits system.now rows.now }
    requires call { IsCallValid system.now call.now }
    ensures { OnOk result (Gains edges.old.items edges.new.items (IsBackBy system.now (members rows.now) call.now library function.now)) }
{
    for i in 0..function.effects.len() {
        let effect = effect_at(function, i);
        add_back_in(alloc, system, rows, call, effect, library, edges)?;
    }
    Ok(())
}

/// Adds the call backs of the function at a location that the callee's row has, where it is a library function and a target
/// of the call.
fn add_backs_at(
    alloc: Global,
    system: &System,
    rows: &Rows,
    call: &CallSite,
    location: u32,
    edges: &mut Vec<(u32, u32)>,
) -> Result<(), OutOfMemory>
    requires valid { IsValid system.now }
    requires fits { Fits system.now rows.now }
    requires call { IsCallValid system.now call.now }
    requires location { Has (members rows.now) call.now.callee location }
    ensures { OnOk result (Gains edges.old.items edges.new.items (IsBackAt system.now (members rows.now) call.now location)) }
{
    let Some(number) = location_fact(system, location).function else {
        return Ok(());
    };
    let function = function_at(system, number as usize);
    if function.library.is_none() {
        return Ok(());
    }
    if function.signature != call.signature {
        return Ok(());
    }
    add_back_by(alloc, system, rows, call, number, function, edges)?;
    Ok(())
}

/// Adds the call backs of each library function that is a target of the call, by the locations that its callee's row has.
fn add_backs(
    alloc: Global,
    system: &System,
    rows: &Rows,
    call: &CallSite,
    held: &[u32],
    edges: &mut Vec<(u32, u32)>,
) -> Result<(), OutOfMemory>
    requires valid { IsValid system.now }
    requires fits { Fits system.now rows.now }
    requires call { IsCallValid system.now call.now }
    requires held { (location : ℕ) → Contains held.now location ↔ Has (members rows.now) call.now.callee location }
    ensures { OnOk result
        (Gains edges.old.items edges.new.items
        (λ a b. (target : ℕ) × IsBackEdge system.now (members rows.now) call.now target a b)) }
{
    for i in 0..held.len() {
        add_backs_at(alloc, system, rows, call, held[i], edges)?;
    }
    Ok(())
}

/// Adds the edges of one call: its caller with each target, and each library target with what it calls back. Only the
/// locations that the callee's row has are looked at.
pub(crate) fn add_call(
    alloc: Global,
    system: &System,
    rows: &Rows,
    call: &CallSite,
    edges: &mut Vec<(u32, u32)>,
) -> Result<(), OutOfMemory>
    requires valid { IsValid system.now }
    requires fits { Fits system.now rows.now }
    requires call { IsCallValid system.now call.now }
    ensures { OnOk result (Gains edges.old.items edges.new.items (IsCallEdge system.now (members rows.now) call.now)) }
{
    let held = members_of(alloc, system, rows, call.callee)?;
    add_all_to(system, held.as_slice(), call.signature, call.caller, edges)?;
    add_backs(alloc, system, rows, call, held.as_slice(), edges)?;
    Ok(())
}

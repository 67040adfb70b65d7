// The calls through pointers, with their targets.
ghost use Rattle.std.specs.Prelude.{◌≡◌, ◌++◌, [], ◌∷◌, map, IfOk, OnOk, slice_get};
ghost use Rattle.std.specs.Option.{option_map_or};
ghost use Rattle.serde_json.specs.View.{view};
ghost use Rattle.sol_model.specs.Families.{members};
ghost use Rattle.sol_model.specs.Systems.{IsValid, Fits, IsRow};
ghost use Rattle.unit_report.specs.report_text.Report.{calls_at};
ghost use Rattle.unit_report.specs.report_json.Json.{call_value, calls_value};

use crate::report_json::names::names_value;
use crate::report_json::places::place_text;
use crate::report_text::calls::targets_of;
use crate::report_text::order::{Placed, in_order};
use obj_space::Space;
use pta_base::OutOfMemory;
use serde_json::{Value, json};
use sol_model::sites::call_at;
use sol_model::{CallSite, Rows, System};
use std::alloc::{AllocError, Global};

/// A call with its place and its targets.
fn call_value(
    alloc: Global,
    space: &Space,
    names: &[String],
    system: &System,
    rows: &Rows,
    call: &CallSite,
) -> Result<Value, AllocError>
    requires valid { IsValid system.now }
    requires fits { Fits system.now rows.now }
    requires row { IsRow system.now call.now.callee }
    ensures { IfOk result (λ value. view value ≡ call_value space.now names.now system.now (members rows.now) call.now) }
{
    let list = targets_of(alloc, system, rows, call)?;
    let targets = names_value(alloc, space, &list)?;
    let place = place_text(alloc, names, call.place)?;
    json!(in alloc; {"place": place, "targets": targets})
}

/// Adds the call of a number, where there is such a call.
fn add_numbered(
    alloc: Global,
    list: &mut Vec<Value>,
    space: &Space,
    names: &[String],
    system: &System,
    rows: &Rows,
    number: usize,
) -> Result<(), AllocError>
    requires valid { IsValid system.now }
    requires fits { Fits system.now rows.now }
    ensures { OnOk result (map view list.new.items ≡ map view list.old.items
        ++ option_map_or (λ call. call_value space.now names.now system.now (members rows.now) call ∷ [])
        (slice_get system.now.calls number) []) }
{
    if number >= system.calls.len() {
        return Ok(());
    }
    let call = call_at(system, number);
    let value = call_value(alloc, space, names, system, rows, call)?;
    list.push(value)?;
    Ok(())
}

/// The calls of these numbers.
fn placed_value(
    alloc: Global,
    space: &Space,
    names: &[String],
    system: &System,
    rows: &Rows,
    mut placed: Placed,
) -> Result<Vec<Value>, AllocError>
    requires valid { IsValid system.now }
    requires fits { Fits system.now rows.now }
    ensures { IfOk result (λ list. map view list.items
        ≡ map (call_value space.now names.now system.now (members rows.now)) (calls_at system.now.calls placed.entries)) }
{
    let mut list = Vec::new(alloc);
    while let Some((_, number)) = placed.pop_first() {
        add_numbered(alloc, &mut list, space, names, system, rows, number)?;
    }
    Ok(list)
}

/// The calls that don't name their function, in order of place.
pub(in crate::report_json) fn calls_value(
    alloc: Global,
    space: &Space,
    names: &[String],
    system: &System,
    rows: &Rows,
) -> Result<Value, OutOfMemory>
    requires valid { IsValid system.now }
    requires fits { Fits system.now rows.now }
    ensures { IfOk result (λ value. view value ≡ calls_value space.now names.now system.now (members rows.now)) }
{
    let placed = in_order(alloc, system.calls.as_slice())?;
    let list = placed_value(alloc, space, names, system, rows, placed)?;
    Ok(Value::from(list))
}

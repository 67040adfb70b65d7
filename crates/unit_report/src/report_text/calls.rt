// The lines of calls.
ghost use Rattle.std.specs.Prelude.{◌≡◌, ◌++◌, [], codes, map, IfOk, OnOk, slice_get};
ghost use Rattle.std.specs.List.{filter};
ghost use Rattle.std.specs.Option.{option_map_or};
ghost use Rattle.sol_model.specs.Families.{members};
ghost use Rattle.sol_model.specs.Systems.{IsValid, Fits, IsRow};
ghost use Rattle.unit_report.specs.report_text.Report.{agrees, is_function, targets_in, call_line, call_lines, calls_at, text_of};

use crate::report_text::order::{Placed, in_order};
use crate::report_text::pieces::{add_names, add_place};
use call_graph::row_members::members_of;
use obj_space::Space;
use pta_base::OutOfMemory;
use sol_model::sites::call_at;
use sol_model::{CallSite, Rows, System};
use std::alloc::{AllocError, Global};

/// Whether the function of a number has that signature.
fn agrees(system: &System, number: u32, signature: u32) -> bool
    ensures { result ≡ agrees system.now signature number }
{
    match system.functions.as_slice().get(number as usize) {
        Some(function) => function.signature == signature,
        None => false,
    }
}

/// Whether a location is a function of that signature.
fn is_function(system: &System, signature: u32, location: u32) -> bool
    ensures { result ≡ is_function system.now signature location }
{
    match system.locations.as_slice().get(location as usize) {
        Some(fact) => match fact.function {
            Some(number) => agrees(system, number, signature),
            None => false,
        },
        None => false,
    }
}

/// Those of these locations that are functions of that signature.
fn functions_among(
    alloc: Global,
    system: &System,
    signature: u32,
    locations: &[u32],
) -> Result<Vec<u32>, AllocError>
    ensures { IfOk result (λ list. list.items ≡ filter (is_function system.now signature) locations.now) }
{
    let mut list = Vec::new(alloc);
    for location in locations {
        if is_function(system, signature, *location) {
            list.push(*location)?;
        }
    }
    Ok(list)
}

/// The targets of a call, in order of location.
pub(crate) fn targets_of(
    alloc: Global,
    system: &System,
    rows: &Rows,
    call: &CallSite,
) -> Result<Vec<u32>, AllocError>
    requires valid { IsValid system.now }
    requires fits { Fits system.now rows.now }
    requires row { IsRow system.now call.now.callee }
    ensures { IfOk result (λ list. list.items ≡ targets_in system.now (members rows.now) call.now) }
{
    let held = members_of(alloc, system, rows, call.callee)?;
    functions_among(alloc, system, call.signature, &held)
}

/// Adds the line of a call.
fn add_call(
    alloc: Global,
    text: &mut Vec<u8>,
    space: &Space,
    names: &[String],
    system: &System,
    rows: &Rows,
    call: &CallSite,
) -> Result<(), AllocError>
    requires valid { IsValid system.now }
    requires fits { Fits system.now rows.now }
    requires row { IsRow system.now call.now.callee }
    ensures { OnOk result
        (text.new.items ≡ text.old.items ++ (call_line space.now names.now system.now (members rows.now) call.now ++ codes "\n")) }
{
    let list = targets_of(alloc, system, rows, call)?;
    text.extend_from_slice(b"call ")?;
    add_place(text, names, call.place)?;
    text.extend_from_slice(b":")?;
    add_names(text, space, &list)?;
    text.extend_from_slice(b"\n")?;
    Ok(())
}

/// Adds the line of the call of a number, where there is such a call.
fn add_numbered(
    alloc: Global,
    text: &mut Vec<u8>,
    space: &Space,
    names: &[String],
    system: &System,
    rows: &Rows,
    number: usize,
) -> Result<(), AllocError>
    requires valid { IsValid system.now }
    requires fits { Fits system.now rows.now }
    ensures { OnOk result
        (text.new.items
        ≡ text.old.items
        ++ option_map_or (λ call. call_line space.now names.now system.now (members rows.now) call ++ codes "\n")
        (slice_get system.now.calls number) []) }
{
    if number >= system.calls.len() {
        return Ok(());
    }
    let call = call_at(system, number);
    add_call(alloc, text, space, names, system, rows, call)?;
    Ok(())
}

#[tactic(auto, using(crate::proofs::report_text::Placing::lines_more))]
/// Adds the lines of calls of these numbers.
fn add_placed(
    alloc: Global,
    text: &mut Vec<u8>,
    space: &Space,
    names: &[String],
    system: &System,
    rows: &Rows,
    mut placed: Placed,
) -> Result<(), AllocError>
    requires valid { IsValid system.now }
    requires fits { Fits system.now rows.now }
    ensures { OnOk result
        (text.new.items
        ≡ text.old.items
        ++ text_of
        (map (call_line space.now names.now system.now (members rows.now)) (calls_at system.now.calls placed.entries))) }
{
    while let Some((_, number)) = placed.pop_first() {
        add_numbered(alloc, text, space, names, system, rows, number)?;
    }
    Ok(())
}

/// Adds the lines of the calls that don't name their function, in order of place.
pub(in crate::report_text) fn add_calls(
    alloc: Global,
    text: &mut Vec<u8>,
    space: &Space,
    names: &[String],
    system: &System,
    rows: &Rows,
) -> Result<(), OutOfMemory>
    requires valid { IsValid system.now }
    requires fits { Fits system.now rows.now }
    ensures { OnOk result (text.new.items ≡ text.old.items ++ text_of (call_lines space.now names.now system.now (members rows.now))) }
{
    let placed = in_order(alloc, system.calls.as_slice())?;
    add_placed(alloc, text, space, names, system, rows, placed)?;
    Ok(())
}

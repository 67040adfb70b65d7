// The edges of the call graph.
ghost use Rattle.std.specs.Prelude.{◌≡◌, IfOk};
ghost use Rattle.serde_json.specs.View.{view};
ghost use Rattle.unit_report.specs.report_text.Report.{function_name};
ghost use Rattle.unit_report.specs.report_json.Json.{edge_value, edges_value};

use crate::report_json::names::name_in;
use obj_space::Space;
use serde_json::{Value, json};
use sol_model::System;
use std::alloc::{AllocError, Global};

/// The name of a function; no bytes where there is no such function.
fn function_name<'a>(space: &'a Space, system: &System, number: u32) -> &'a str
    ensures { result.now ≡ function_name space.now system.now number }
{
    match system.functions.as_slice().get(number as usize) {
        Some(function) => name_in(space, function.location),
        None => "",
    }
}

/// A caller and a callee, by their names.
fn edge_value(
    alloc: Global,
    space: &Space,
    system: &System,
    pair: (u32, u32),
) -> Result<Value, AllocError>
    ensures { IfOk result (λ value. view value ≡ edge_value space.now system.now pair) }
{
    let caller = function_name(space, system, pair.0);
    let callee = function_name(space, system, pair.1);
    json!(in alloc; [caller, callee])
}

/// Callers and callees, by their names.
pub(in crate::report_json) fn edges_value(
    alloc: Global,
    space: &Space,
    system: &System,
    pairs: &[(u32, u32)],
) -> Result<Value, AllocError>
    ensures { IfOk result (λ value. view value ≡ edges_value space.now system.now pairs.now) }
{
    let mut list = Vec::new(alloc);
    for pair in pairs {
        let edge = edge_value(alloc, space, system, *pair)?;
        list.push(edge)?;
    }
    Ok(Value::from(list))
}

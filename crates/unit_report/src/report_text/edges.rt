// The lines of the call graph.
ghost use Rattle.std.specs.Prelude.{◌≡◌, ◌++◌, codes, map, OnOk};
ghost use Rattle.unit_report.specs.report_text.Report.{function_name, edge_line, text_of};

use crate::report_text::pieces::name_in;
use obj_space::Space;
use sol_model::System;
use std::alloc::AllocError;

/// The name of a function; no bytes where there is no such function.
fn function_name<'a>(space: &'a Space, system: &System, number: u32) -> &'a [u8]
    ensures { result.now ≡ function_name space.now system.now number }
{
    match system.functions.as_slice().get(number as usize) {
        Some(function) => name_in(space, function.location),
        None => &[],
    }
}

/// Adds the line of a caller and a callee.
fn add_edge(
    text: &mut Vec<u8>,
    space: &Space,
    system: &System,
    pair: (u32, u32),
) -> Result<(), AllocError>
    ensures { OnOk result (text.new.items ≡ text.old.items ++ (edge_line space.now system.now pair ++ codes "\n")) }
{
    text.extend_from_slice(b"edge ")?;
    text.extend_from_slice(function_name(space, system, pair.0))?;
    text.extend_from_slice(b" ")?;
    text.extend_from_slice(function_name(space, system, pair.1))?;
    text.extend_from_slice(b"\n")?;
    Ok(())
}

/// Adds the lines of callers and callees.
pub(in crate::report_text) fn add_edges(
    text: &mut Vec<u8>,
    space: &Space,
    system: &System,
    pairs: &[(u32, u32)],
) -> Result<(), AllocError>
    ensures { OnOk result (text.new.items ≡ text.old.items ++ text_of (map (edge_line space.now system.now) pairs.now)) }
{
    for pair in pairs {
        add_edge(text, space, system, *pair)?;
    }
    Ok(())
}

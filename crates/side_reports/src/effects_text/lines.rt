//! Lines of reads and writes.
ghost use Rattle.std.specs.Prelude.{◌≡◌, ◌^◌, ◌<◌, ◌++◌, ℕ, IfOk, OnOk, codes, length};
ghost use Rattle.core_tree.specs.Range.{InRange};
ghost use Rattle.core_tree.specs.Typed.{trees_in};
ghost use Rattle.sol_model.specs.Families.{members};
ghost use Rattle.sol_model.specs.Systems.{IsValid, Fits, location_count};
ghost use Rattle.obj_space.specs.View.{view_of};
ghost use Rattle.normal_form.specs.SystemOf.{SystemOf};
ghost use Rattle.unit_report.specs.report_text.Report.{text_of};
ghost use Rattle.side_reports.specs.effects_text.Effects.{IsEffectsText, IsListable, lines_by, lines_from, touch_line};

use crate::effects_text::held::held_by;
use core_tree::Program;
use mod_ref::{Effects, effects};
use obj_space::Space;
use pta_base::OutOfMemory;
use sol_model::sites::function_at;
use sol_model::{Function, Rows, System};
use std::alloc::{AllocError, Global};
use unit_report::report_text::pieces::{add_names, name_in};

/// Adds a line: a title, the name of a function, and the names of the members of its row.
fn add_line(
    alloc: Global,
    text: &mut Vec<u8>,
    title: &[u8],
    space: &Space,
    system: &System,
    function: &Function,
    rows: &Rows,
    row: u32,
) -> Result<(), AllocError>
    requires listable { IsListable system.now rows.now row }
    requires count { length space.now ≡ location_count system.now }
    ensures { OnOk result (text.new.items ≡ text.old.items
        ++ (touch_line title.now space.now system.now (members rows.now) row function.now ++ codes "\n")) }
{
    let held = held_by(alloc, rows, row, space.count())?;
    text.extend_from_slice(title)?;
    text.extend_from_slice(b" ")?;
    text.extend_from_slice(name_in(space, function.location))?;
    text.extend_from_slice(b":")?;
    add_names(text, space, &held)?;
    text.extend_from_slice(b"\n")?;
    Ok(())
}

/// Adds the lines of a function that a unit defines; one of the library has none.
fn add_function(
    alloc: Global,
    text: &mut Vec<u8>,
    space: &Space,
    system: &System,
    function: &Function,
    made: &Effects,
    row: u32,
) -> Result<(), AllocError>
    requires reads { IsListable system.now made.now.reads row }
    requires writes { IsListable system.now made.now.writes row }
    requires count { length space.now ≡ location_count system.now }
    ensures { OnOk result (text.new.items ≡ text.old.items
        ++ text_of (lines_by space.now system.now (members made.now.reads) (members made.now.writes) row function.now
        function.now.library)) }
{
    if function.library.is_some() {
        return Ok(());
    }
    add_line(
        alloc,
        text,
        b"reads",
        space,
        system,
        function,
        &made.reads,
        row,
    )?;
    add_line(
        alloc,
        text,
        b"writes",
        space,
        system,
        function,
        &made.writes,
        row,
    )?;
    Ok(())
}

/// Adds the lines of all functions that units define, in the order of their locations.
fn add_functions(
    alloc: Global,
    text: &mut Vec<u8>,
    space: &Space,
    system: &System,
    made: &Effects,
) -> Result<(), AllocError>
    requires valid { IsValid system.now }
    requires few { length system.now.functions < 2 ^ 32 }
    requires reads { (row : ℕ) → row < length system.now.functions → IsListable system.now made.now.reads row }
    requires writes { (row : ℕ) → row < length system.now.functions → IsListable system.now made.now.writes row }
    requires count { length space.now ≡ location_count system.now }
    ensures { OnOk result (text.new.items ≡ text.old.items
        ++ text_of (lines_from space.now system.now (members made.now.reads) (members made.now.writes) 0 system.now.functions)) }
{
    for row in 0..system.functions.len() {
        let function = function_at(system, row);
        add_function(alloc, text, space, system, function, made, row as u32)?;
    }
    Ok(())
}

/// What each function that a unit defines may read and write, as lines. The one error is want of memory.
pub fn effects_text(
    alloc: Global,
    program: &Program,
    space: &Space,
    system: &System,
    rows: &Rows,
) -> Result<Vec<u8>, OutOfMemory>
    requires range { InRange (trees_in program.now) }
    requires system { SystemOf program.now (view_of space.now) system.now }
    requires valid { IsValid system.now }
    requires fits { Fits system.now rows.now }
    ensures { IfOk result (λ text. IsEffectsText program.now space.now system.now (members rows.now) text.items) }
{
    let made = effects(alloc, program, space, system, rows)?;
    if system.functions.len() > u32::MAX as usize {
        return Err(OutOfMemory);
    }
    let mut text = Vec::new(alloc);
    text.extend_from_slice(b"effects 1\n")?;
    add_functions(alloc, &mut text, space, system, &made)?;
    text.extend_from_slice(b"end\n")?;
    Ok(text)
}

// Printing a report as JSON.
ghost use Rattle.std.specs.Prelude.{◌≡◌, ◌≤◌, length, IfErr, OnOk};
ghost use Rattle.sol_model.specs.Families.{members};
ghost use Rattle.sol_model.specs.Systems.{IsValid, Fits, location_count};
ghost use Rattle.unit_report.specs.report_text.Outside.{IsPrinted, Leaves};
ghost use Rattle.unit_report.specs.report_json.Json.{IsJsonReport};

use crate::report_json::whole::json_report;
use crate::report_text::{PrintFault, write_text};
use obj_space::Space;
use pta_base::Sink;
use sol_model::{Rows, System};
use std::alloc::Global;

/// Writes the report of rows as JSON (`json_report`). All memory is taken before the first byte: at want of memory nothing was written,
/// and at a fault of the sink, where its `faults` rose, a beginning of the report was.
pub fn print_json<O: Sink>(
    alloc: Global,
    space: &Space,
    names: &[String],
    system: &System,
    rows: &Rows,
    out: &mut O,
) -> Result<(), PrintFault>
    requires valid { IsValid system.now }
    requires fits { Fits system.now rows.now }
    requires count { length space.now ≡ location_count system.now }
    ensures printed { OnOk result (IsPrinted (IsJsonReport space.now names.now system.now (members rows.now))
        (O.written out.old) (O.written out.new) (O.faults out.old) (O.faults out.new)) }
    ensures refused { IfErr result (Leaves (IsJsonReport space.now names.now system.now (members rows.now))
        (O.written out.old) (O.written out.new) (O.faults out.old) (O.faults out.new)) }
    ensures rises { O.faults out.old ≤ O.faults out.new }
{
    let text = match json_report(alloc, space, names, system, rows) {
        Ok(text) => text,
        Err(_) => return Err(PrintFault::OutOfMemory),
    };
    if write_text(out, &text) {
        Ok(())
    } else {
        Err(PrintFault::Sink)
    }
}

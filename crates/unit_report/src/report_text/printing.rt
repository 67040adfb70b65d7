// Printing a report.
ghost use Rattle.std.specs.Prelude.{◌≡◌, ◌++◌, ◌≤◌, ℕ, length, take, true, false, option_map, IfErr, OnOk};
ghost use Rattle.pta_base.specs.Outside.{HasRisen};
ghost use Rattle.sol_model.specs.Families.{members};
ghost use Rattle.sol_model.specs.Systems.{IsValid, Fits, location_count};
ghost use Rattle.unit_report.specs.report_text.Report.{IsReport};
ghost use Rattle.unit_report.specs.report_text.Outside.{Grows, GrowsInPart, IsPrinted, Leaves};

use crate::report_text::fault::PrintFault;
use crate::report_text::whole::report;
use obj_space::Space;
use pta_base::Sink;
use sol_model::{Rows, System};
use std::alloc::Global;

/// Writes a text whole, in as many writes as the sink asks for; false where the sink failed, which then has got a beginning of it.
pub fn write_text<O: Sink>(out: &mut O, text: &[u8]) -> bool
    ensures whole { result ≡ true → Grows (O.written out.old) (O.written out.new) text.now }
    ensures part { result ≡ false → GrowsInPart (O.written out.old) (O.written out.new) text.now }
    ensures cause { result ≡ false → HasRisen (O.faults out.old) (O.faults out.new) }
    ensures steady { result ≡ true → O.faults out.new ≡ O.faults out.old }
    ensures rises { O.faults out.old ≤ O.faults out.new }
{
    let mut at = 0;
    while at < text.len() {
        let rest = &text[at..];
        match out.write(rest) {
            Ok(count) => at += count,
            Err(_) => return false,
        }
    }
    true
}

/// Writes the report of rows. All memory is taken before the first byte: at want of memory nothing was written, and at
/// a fault of the sink a beginning of the report was.
pub fn print<O: Sink>(
    alloc: Global,
    space: &Space,
    names: &[String],
    system: &System,
    rows: &Rows,
    out: &mut O,
) -> Result<(), PrintFault>
    requires valid { IsValid system.now }
    requires fits { Fits system.now rows.now }
    requires count { length space.now ≡ location_count system.now }
    ensures printed { OnOk result
        (IsPrinted (IsReport space.now names.now system.now (members rows.now)) (O.written out.old) (O.written out.new)
        (O.faults out.old) (O.faults out.new)) }
    ensures refused { IfErr result
        (Leaves (IsReport space.now names.now system.now (members rows.now)) (O.written out.old) (O.written out.new)
        (O.faults out.old) (O.faults out.new)) }
    ensures rises { O.faults out.old ≤ O.faults out.new }
{
    let text = match report(alloc, space, names, system, rows) {
        Ok(text) => text,
        Err(_) => return Err(PrintFault::OutOfMemory),
    };
    if write_text(out, &text) {
        Ok(())
    } else {
        Err(PrintFault::Sink)
    }
}

// Places as texts.
ghost use Rattle.std.specs.Prelude.{◌≡◌, IfOk, string_bytes};
ghost use Rattle.unit_report.specs.report_text.Report.{unit_name, place_text};

use itoa::Buffer;
use pta_base::Place;
use std::alloc::{AllocError, Global};

/// The name of a unit; no bytes where there is no such unit.
fn unit_name(names: &[String], unit: u32) -> &str
    ensures { result.now ≡ unit_name names.now unit }
{
    match names.get(unit as usize) {
        Some(name) => name.as_str(),
        None => "",
    }
}

/// A place, with the line and the column as decimal numbers.
pub(in crate::report_json) fn place_text(
    alloc: Global,
    names: &[String],
    place: Place,
) -> Result<String, AllocError>
    ensures { IfOk result (λ text. string_bytes text ≡ place_text names.now place) }
{
    let mut buffer = Buffer::new();
    let mut text = String::from_str(alloc, unit_name(names, place.unit))?;
    text.push_str(":")?;
    text.push_str(buffer.format(place.line))?;
    text.push_str(":")?;
    text.push_str(buffer.format(place.column))?;
    Ok(text)
}

// Names as values.
ghost use Rattle.std.specs.Prelude.{◌≡◌, IfOk};
ghost use Rattle.serde_json.specs.View.{view};
ghost use Rattle.unit_report.specs.report_text.Report.{name_in};
ghost use Rattle.unit_report.specs.report_json.Json.{names_value};

use obj_space::Space;
use serde_json::Value;
use std::alloc::{AllocError, Global};

/// The name of a location; no bytes where there is no such location.
pub(in crate::report_json) fn name_in(space: &Space, location: u32) -> &str
    ensures { result.now ≡ name_in space.now location }
{
    if location < space.count() {
        space.location(location).name.as_str()
    } else {
        ""
    }
}

/// The names of these locations.
pub(in crate::report_json) fn names_value(
    alloc: Global,
    space: &Space,
    locations: &[u32],
) -> Result<Value, AllocError>
    ensures { IfOk result (λ value. view value ≡ names_value space.now locations.now) }
{
    let mut list = Vec::new(alloc);
    for location in locations {
        let name = Value::try_from_str(alloc, name_in(space, *location))?;
        list.push(name)?;
    }
    Ok(Value::from(list))
}

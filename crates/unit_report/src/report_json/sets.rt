// The sets of locations.
ghost use Rattle.std.specs.Prelude.{◌≡◌, length, IfOk};
ghost use Rattle.serde_json.specs.View.{view};
ghost use Rattle.sol_model.specs.Families.{members};
ghost use Rattle.sol_model.specs.Systems.{IsValid, Fits, IsRow, location_count};
ghost use Rattle.unit_report.specs.report_text.Report.{has_set};
ghost use Rattle.unit_report.specs.report_json.Json.{set_value, sets_value};

use crate::report_json::names::{name_in, names_value};
use crate::report_text::sets::has_set;
use call_graph::row_members::members_of;
use obj_space::Space;
use serde_json::{Value, json};
use sol_model::{Rows, System};
use std::alloc::{AllocError, Global};

/// The set of a location.
fn set_value(
    alloc: Global,
    space: &Space,
    system: &System,
    rows: &Rows,
    location: u32,
) -> Result<Value, AllocError>
    requires valid { IsValid system.now }
    requires fits { Fits system.now rows.now }
    requires row { IsRow system.now location }
    ensures { IfOk result (λ value. view value ≡ set_value space.now system.now (members rows.now) location) }
{
    let list = members_of(alloc, system, rows, location)?;
    let members = names_value(alloc, space, &list)?;
    json!(in alloc; {"members": members, "name": name_in(space, location)})
}

/// The sets of all locations that have one.
pub(in crate::report_json) fn sets_value(
    alloc: Global,
    space: &Space,
    system: &System,
    rows: &Rows,
) -> Result<Value, AllocError>
    requires valid { IsValid system.now }
    requires fits { Fits system.now rows.now }
    requires count { length space.now ≡ location_count system.now }
    ensures { IfOk result (λ value. view value ≡ sets_value space.now system.now (members rows.now)) }
{
    let mut list = Vec::new(alloc);
    for location in 0..space.count() {
        if has_set(space, location) {
            let set = set_value(alloc, space, system, rows, location)?;
            list.push(set)?;
        }
    }
    Ok(Value::from(list))
}

// The lines of sets.
ghost use Rattle.std.specs.Prelude.{◌≡◌, ◌≤◌, ◌++◌, [], if◌then◌else◌, codes, length, OnOk};
ghost use Rattle.sol_model.specs.Families.{members};
ghost use Rattle.sol_model.specs.Systems.{IsValid, Fits, IsRow, location_count};
ghost use Rattle.unit_report.specs.report_text.Report.{has_set, set_line, set_lines, text_of};

use crate::report_text::pieces::{add_names, name_in};
use alias_query::has_line;
use call_graph::row_members::members_of;
use obj_space::Space;
use sol_model::{Rows, System};
use std::alloc::{AllocError, Global};

/// Whether the set of a location has a line.
pub(crate) fn has_set(space: &Space, location: u32) -> bool
    ensures { result ≡ has_set space.now location }
{
    if location >= space.count() {
        return false;
    }
    has_line(space.location(location))
}

/// Adds the line of a location's set.
fn add_set(
    alloc: Global,
    text: &mut Vec<u8>,
    space: &Space,
    system: &System,
    rows: &Rows,
    location: u32,
) -> Result<(), AllocError>
    requires valid { IsValid system.now }
    requires fits { Fits system.now rows.now }
    requires row { IsRow system.now location }
    ensures { OnOk result (text.new.items ≡ text.old.items ++ (set_line space.now system.now (members rows.now) location ++ codes "\n")) }
{
    let list = members_of(alloc, system, rows, location)?;
    text.extend_from_slice(b"set ")?;
    text.extend_from_slice(name_in(space, location))?;
    text.extend_from_slice(b":")?;
    add_names(text, space, &list)?;
    text.extend_from_slice(b"\n")?;
    Ok(())
}

/// Adds the lines of all sets that have one.
pub(in crate::report_text) fn add_sets(
    alloc: Global,
    text: &mut Vec<u8>,
    space: &Space,
    system: &System,
    rows: &Rows,
) -> Result<(), AllocError>
    requires valid { IsValid system.now }
    requires fits { Fits system.now rows.now }
    requires count { length space.now ≡ location_count system.now }
    ensures { OnOk result (text.new.items ≡ text.old.items ++ text_of (set_lines space.now system.now (members rows.now))) }
{
    for location in 0..space.count() {
        if has_set(space, location) {
            add_set(alloc, text, space, system, rows, location)?;
        }
    }
    Ok(())
}

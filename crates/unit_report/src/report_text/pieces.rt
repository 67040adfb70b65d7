//! Names and places in lines.
ghost use Rattle.std.specs.Prelude.{◌≡◌, ◌++◌, OnOk};
ghost use Rattle.unit_report.specs.report_text.Report.{name_in, names_of, unit_name, place_text};

use itoa::Buffer;
use obj_space::Space;
use pta_base::Place;
use std::alloc::AllocError;

/// The name of a location; no bytes where there is no such location.
pub fn name_in(space: &Space, location: u32) -> &[u8]
    ensures { result.now ≡ name_in space.now location }
{
    if location < space.count() {
        space.location(location).name.as_str().as_bytes()
    } else {
        &[]
    }
}

/// Adds a space and the name of each of these locations.
pub fn add_names(text: &mut Vec<u8>, space: &Space, locations: &[u32]) -> Result<(), AllocError>
    ensures { OnOk result (text.new.items ≡ text.old.items ++ names_of space.now locations.now) }
{
    for location in locations {
        text.extend_from_slice(b" ")?;
        text.extend_from_slice(name_in(space, *location))?;
    }
    Ok(())
}

/// The name of a unit; no bytes where there is no such unit.
fn unit_name(names: &[String], unit: u32) -> &[u8]
    ensures { result.now ≡ unit_name names.now unit }
{
    match names.get(unit as usize) {
        Some(name) => name.as_str().as_bytes(),
        None => &[],
    }
}

/// Adds a place.
pub fn add_place(text: &mut Vec<u8>, names: &[String], place: Place) -> Result<(), AllocError>
    ensures { OnOk result (text.new.items ≡ text.old.items ++ place_text names.now place) }
{
    let mut buffer = Buffer::new();
    text.extend_from_slice(unit_name(names, place.unit))?;
    text.extend_from_slice(b":")?;
    text.extend_from_slice(buffer.format(place.line).as_bytes())?;
    text.extend_from_slice(b":")?;
    text.extend_from_slice(buffer.format(place.column).as_bytes())?;
    Ok(())
}

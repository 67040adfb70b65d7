// What the items of an initialiser put where.

ghost use Rattle.std.specs.Prelude.{◌≡◌, ◌+◌, ◌<◌, ◌≤◌, ◌^◌, ◌++◌, OnOk, All, length};
ghost use Rattle.normal_form.specs.Assignments.{item_row, initialise_row, target_node};
ghost use Rattle.normal_form.specs.Spots.{IsSpotted, AreSpotted};
ghost use Rattle.row_numbers.specs.Frame.{IsFrame, IsNodeIn, setting_in};

use crate::each::Each;
use crate::normal::Assignment;
use crate::rows::push_kept;
use c_types::key::ObjectKey;
use c_types::term::PathStep;
use obj_space::node_along;
use pta_base::{Listing, OutOfMemory};
use row_numbers::frame::{Frame, type_at};
use row_numbers::kept::node_count;
use row_numbers::numbering::key_id;
use row_numbers::objects::location_of;
use std::alloc::Global;

// The node at the end of a path in an entity's object.
fn target_node(frame: &Frame<'_>, e: u32, path: &[PathStep]) -> u32
    requires frame { IsFrame frame.now }
    requires small { target_node (setting_in frame.now).trees e path.now < 2 ^ 32 }
    ensures { result ≡ target_node (setting_in frame.now).trees e path.now }
{
    match key_id(frame.program, ObjectKey::Entity(e)) {
        Some(id) => node_along(&frame.program.types, id, path).unwrap_or(0),
        None => 0,
    }
}

// One item. A value without nodes demands nothing.
fn item(
    alloc: Global,
    frame: &Frame<'_>,
    e: u32,
    path: &[PathStep],
    v: u32,
    out: &mut Listing<Assignment>,
) -> Result<(), OutOfMemory>
    requires frame { IsFrame frame.now }
    requires value { v < length frame.now.program.now.nodes.items }
    requires spotted { IsSpotted (setting_in frame.now).trees (setting_in frame.now).space e path.now v }
    ensures { OnOk result (out.new ≡ out.old ++ item_row (setting_in frame.now) e path.now v) }
{
    let types = &frame.program.types;
    let ty = type_at(frame, v);
    if node_count(types, ty) == 0 {
        return Ok(());
    }
    let location = location_of(frame.program, frame.space, e) + target_node(frame, e, path);
    let from = frame.row(v);
    let each = if frame.space.collapsed(location) {
        Each::Gathers { location, from }
    } else {
        Each::Puts { location, from }
    };
    push_kept(alloc, types, ty, each, out)
}

/// An initialiser (C11 6.7.9): each item's value goes to the location at the end of its path.
pub(crate) fn initialised(
    alloc: Global,
    frame: &Frame<'_>,
    e: u32,
    paths: &[Listing<PathStep>],
    values: &[u32],
    out: &mut Listing<Assignment>,
) -> Result<(), OutOfMemory>
    requires frame { IsFrame frame.now }
    requires values { All (IsNodeIn frame.now) values.now }
    requires spotted { AreSpotted (setting_in frame.now).trees (setting_in frame.now).space e paths.now values.now }
    ensures { OnOk result (out.new ≡ out.old ++ initialise_row (setting_in frame.now) e paths.now values.now) }
{
    let count = paths.len().min(values.len());
    for i in 0..count {
        item(alloc, frame, e, paths[i].as_slice(), values[i], out)?;
    }
    Ok(())
}

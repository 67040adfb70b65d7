// The names that a run text has of places in memory, and of nodes.

ghost use Rattle.std.specs.Prelude.{◌≡◌, ◌++◌, OnOk};
ghost use Rattle.run_text.specs.Names.{name_at, part_name, target_name, unit_name, place_text, node_place};

use c_types::key::ObjectKey;
use c_types::table::TypeTable;
use c_types::term::PathStep;
use core_tree::Program;
use itoa::Buffer;
use obj_space::Space;
use pta_base::{Place, Text};
use ref_cells::cells::Cell;
use ref_mem::memory::Memory;
use std::alloc::AllocError;

// The name of a location; a question mark where there is none.
fn name_at(space: &Space, location: Option<u32>) -> &[u8]
    ensures { result.now ≡ name_at space.now location }
{
    let Some(location) = location else {
        return b"?";
    };
    if location < space.count() {
        space.location(location).name.as_str().as_bytes()
    } else {
        b"?"
    }
}

/// The name of the part of an object at the end of a path; a question mark where there is none.
pub(crate) fn part_name<'a>(
    space: &'a Space,
    types: &TypeTable,
    key: ObjectKey,
    path: &[PathStep],
) -> &'a [u8]
    ensures { result.now ≡ part_name space.now types.now key path.now }
{
    name_at(space, space.spot(types, key, path))
}

/// The name of what a pointer points to, or of the cell that it is the place of; a question mark where there is none.
pub(crate) fn target_name<'a>(
    space: &'a Space,
    types: &TypeTable,
    memory: &Memory,
    cell: &Cell,
) -> &'a [u8]
    ensures { result.now ≡ target_name space.now types.now memory.now cell.now }
{
    match cell {
        Cell::Pointer { instance, path, .. } => {
            match memory.instances().get(*instance as usize) {
                Some(object) => part_name(space, types, object.key, path.as_slice()),
                None => b"?",
            }
        }
        Cell::Function(key) => part_name(space, types, *key, &[]),
        Cell::Unset | Cell::Number(_) | Cell::Null => b"?",
    }
}

// The name of a unit; nothing where there is no such unit.
fn unit_name(names: &[Text], unit: u32) -> &[u8]
    ensures { result.now ≡ unit_name names.now unit }
{
    match names.get(unit as usize) {
        Some(name) => name.as_str().as_bytes(),
        None => &[],
    }
}

// Adds a place.
fn add_place(text: &mut Vec<u8>, names: &[Text], place: Place) -> Result<(), AllocError>
    ensures { OnOk result (text.new.items ≡ text.old.items ++ place_text names.now place) }
{
    let mut buffer = Buffer::new();
    text.extend_from_slice(unit_name(names, place.unit))?;
    text.extend_from_slice(b":")?;
    text.extend_from_slice(buffer.format(place.line).as_bytes())?;
    text.extend_from_slice(b":")?;
    text.extend_from_slice(buffer.format(place.column).as_bytes())?;
    Ok(())
}

/// Adds the place of a node; nothing where there is no such node.
pub(crate) fn add_node_place(
    text: &mut Vec<u8>,
    program: &Program,
    n: u32,
) -> Result<(), AllocError>
    ensures { OnOk result (text.new.items ≡ text.old.items ++ node_place program.now n) }
{
    match program.nodes.as_slice().get(n as usize) {
        Some(node) => add_place(text, program.names.as_slice(), node.place),
        None => Ok(()),
    }
}

// The lines of a run text.

ghost use Rattle.std.specs.Prelude.{◌≡◌, ◌++◌, OnOk, flat_map};
ghost use Rattle.obj_space.specs.Space.{locations_in};
ghost use Rattle.run_text.specs.Lines.{finished_line, notes_text, reason_name, stopped_line, store_line, target_line, went_line};

use crate::names::{add_node_place, part_name, target_name};
use c_types::key::ObjectKey;
use core_tree::Program;
use itoa::Buffer;
use obj_space::Space;
use ref_cells::cells::{Cell, Reason};
use ref_mem::memory::Memory;
use ref_state::notes::Notes;
use std::alloc::AllocError;

// Adds the line of a call through a pointer, where a step noted one.
fn add_target(
    text: &mut Vec<u8>,
    program: &Program,
    space: &Space,
    target: Option<(u32, ObjectKey)>,
) -> Result<(), AllocError>
    requires { space.now ≡ locations_in program.now }
    ensures { OnOk result (text.new.items ≡ text.old.items ++ target_line program.now target) }
{
    let Some((n, key)) = target else {
        return Ok(());
    };
    text.extend_from_slice(b"target ")?;
    add_node_place(text, program, n)?;
    text.extend_from_slice(b" ")?;
    text.extend_from_slice(part_name(space, &program.types, key, &[]))?;
    text.extend_from_slice(b"\n")?;
    Ok(())
}

// Adds the line of a pointer that a step put into a cell.
fn add_store(
    text: &mut Vec<u8>,
    program: &Program,
    space: &Space,
    memory: &Memory,
    store: &(Cell, Cell),
) -> Result<(), AllocError>
    requires { space.now ≡ locations_in program.now }
    ensures { OnOk result (text.new.items ≡ text.old.items ++ store_line program.now memory.now store.now) }
{
    text.extend_from_slice(b"store ")?;
    text.extend_from_slice(target_name(space, &program.types, memory, &store.0))?;
    text.extend_from_slice(b" ")?;
    text.extend_from_slice(target_name(space, &program.types, memory, &store.1))?;
    text.extend_from_slice(b"\n")?;
    Ok(())
}

/// Adds what a step noted: the line of its call, where it is one through a pointer, and those of the pointers that it put into cells.
pub(crate) fn add_notes(
    text: &mut Vec<u8>,
    program: &Program,
    space: &Space,
    memory: &Memory,
    notes: &Notes,
) -> Result<(), AllocError>
    requires { space.now ≡ locations_in program.now }
    ensures { OnOk result (text.new.items ≡ text.old.items ++ notes_text program.now memory.now notes.now) }
{
    add_target(text, program, space, notes.target)?;
    for store in notes.stores.as_slice() {
        add_store(text, program, space, memory, store)?;
    }
    Ok(())
}

// The name of a reason.
fn reason_name(reason: Reason) -> &'static [u8]
    ensures { result.now ≡ reason_name reason }
{
    match reason {
        Reason::NullUse => b"NullUse",
        Reason::DeadUse => b"DeadUse",
        Reason::OutOfRange => b"OutOfRange",
        Reason::Unset => b"Unset",
        Reason::Overflow => b"Overflow",
        Reason::DivideByZero => b"DivideByZero",
        Reason::Mismatch => b"Mismatch",
        Reason::BadCall => b"BadCall",
    }
}

/// Adds the line of a step that isn't defined: why, and the place of the node.
pub(crate) fn add_stop(
    text: &mut Vec<u8>,
    program: &Program,
    reason: Reason,
    n: u32,
) -> Result<(), AllocError>
    ensures { OnOk result (text.new.items ≡ text.old.items ++ stopped_line program.now reason n) }
{
    text.extend_from_slice(b"stopped ")?;
    text.extend_from_slice(reason_name(reason))?;
    text.extend_from_slice(b" ")?;
    add_node_place(text, program, n)?;
    text.extend_from_slice(b"\n")?;
    Ok(())
}

/// Adds the line of a program that has finished, with its status.
pub(crate) fn add_finish(text: &mut Vec<u8>, status: i32) -> Result<(), AllocError>
    ensures { OnOk result (text.new.items ≡ text.old.items ++ finished_line status) }
{
    let mut buffer = Buffer::new();
    text.extend_from_slice(b"finished ")?;
    text.extend_from_slice(buffer.format(status).as_bytes())?;
    text.extend_from_slice(b"\n")?;
    Ok(())
}

/// Adds the line of a run whose steps all went.
pub(crate) fn add_went(text: &mut Vec<u8>, steps: u32) -> Result<(), AllocError>
    ensures { OnOk result (text.new.items ≡ text.old.items ++ went_line steps) }
{
    let mut buffer = Buffer::new();
    text.extend_from_slice(b"went ")?;
    text.extend_from_slice(buffer.format(steps).as_bytes())?;
    text.extend_from_slice(b"\n")?;
    Ok(())
}

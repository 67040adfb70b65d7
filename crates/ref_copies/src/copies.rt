// The functions that copy whole elements.

ghost use Rattle.std.specs.Prelude.{◌≡◌, ◌<◌, IfOk, OnErr, length};
ghost use Rattle.ref_cells.specs.Answers.{Gives, Agrees};
ghost use Rattle.ref_cells.specs.Places.{AreKnown};
ghost use Rattle.ref_elements.specs.Arguments.{argument};
ghost use Rattle.ref_elements.specs.Runs.{within};
ghost use Rattle.ref_copies.specs.Copies.{copied, target_for, alike, copy_to, copy_from, copy_row};

use c_types::table::TypeTable;
use c_types::term::TypeId;
use ref_cells::cells::{Cell, Cells, MemFault, Path, Reason, Value};
use ref_elements::arguments::{count, scalar};
use ref_elements::outcome::{LibOutcome, gives};
use ref_elements::parts::{content_at, parts_of, push_part, puts, same_type, within};
use ref_elements::runs::{Found, Run, element_path, found_as, found_at};
use ref_mem::memory::Memory;
use std::alloc::Global;

// So many elements of one place, each under the path of the same one of another place.
fn copied(
    alloc: Global,
    memory: &Memory,
    types: &TypeTable,
    source: &Found,
    target: &Run,
    n: u64,
) -> Result<Vec<(Path, Cells)>, MemFault>
    requires memory { AreKnown (length types.now.terms) memory.now }
    requires within { source.now.number < length memory.now }
    requires of { source.now.run.of.0 < length types.now.terms }
    ensures { Gives (λ parts. parts.items) result (copied types.now memory.now source.now target.now 0 n) }
{
    let mut parts = Vec::new(alloc);
    for k in 0..n {
        match content_at(alloc, memory, types, source, k)? {
            Some(cells) => {
                let path = element_path(alloc, target, k)?;
                push_part(&mut parts, path, cells)?;
            }
            None => return Err(MemFault::Stop(Reason::Mismatch)),
        }
    }
    Ok(parts)
}

// The elements at a target, which gets a type where it has none.
fn target_found(
    alloc: Global,
    memory: &Memory,
    types: &TypeTable,
    place: &Cell,
    id: TypeId,
) -> Result<Found, MemFault>
    requires memory { AreKnown (length types.now.terms) memory.now }
    requires id { id.0 < length types.now.terms }
    ensures found { Gives (λ f. f) result
        (target_for types.now memory.now place.now id) }
    ensures within { IfOk result (λ f. f.number < length memory.now) }
    ensures known { IfOk result (λ f. f.run.of.0 < length types.now.terms) }
{
    match place {
        Cell::Null => Err(MemFault::Stop(Reason::NullUse)),
        Cell::Pointer {
            instance,
            path,
            past,
        } => match memory.instances().get(*instance as usize) {
            Some(inst) => {
                if inst.live {
                    let ty = match inst.ty {
                        Some(old) => old,
                        None => id,
                    };
                    found_as(
                        alloc,
                        types,
                        *instance,
                        inst,
                        path.as_slice(),
                        *past,
                        Some(ty),
                    )
                } else {
                    Err(MemFault::Stop(Reason::DeadUse))
                }
            }
            None => Err(MemFault::Stop(Reason::Mismatch)),
        },
        Cell::Unset | Cell::Number(_) | Cell::Function(_) => Err(MemFault::Stop(Reason::Mismatch)),
    }
}

fn alike(types: &TypeTable, id: TypeId, found: Found) -> Result<Found, Reason>
    requires id { id.0 < length types.now.terms }
    requires of { found.run.of.0 < length types.now.terms }
    ensures found { Agrees (λ f. f) result (alike types.now id found) }
    ensures same { IfOk result (λ f. f ≡ found) }
{
    if same_type(types, found.run.of, id) {
        Ok(found)
    } else {
        Err(Reason::Mismatch)
    }
}

// Copies elements of one place to another.
fn copy_to(
    alloc: Global,
    memory: &mut Memory,
    types: &TypeTable,
    place: Cell,
    bytes: u64,
    source: &Found,
    target: &Found,
) -> Result<LibOutcome, MemFault>
    requires memory { AreKnown (length types.now.terms) memory.old }
    requires source { source.now.number < length memory.old }
    requires of { source.now.run.of.0 < length types.now.terms }
    requires target { target.now.number < length memory.old }
    ensures value { Gives (λ o. record { memory = memory.new; outcome = o }) result
        (copy_to types.now memory.old place bytes source.now target.now) }
    ensures err { OnErr result (memory.new ≡ memory.old) }
{
    let n = parts_of(bytes, types.size_of(source.run.of))?;
    let n = within(n, source.run.room)?;
    let n = within(n, target.run.room)?;
    let parts = copied(alloc, memory, types, source, &target.run, n)?;
    puts(
        alloc,
        memory,
        types,
        target.number,
        source.run.of,
        parts.as_slice(),
        place,
    )
}

// Copies elements to a place.
fn copy_from(
    alloc: Global,
    memory: &mut Memory,
    types: &TypeTable,
    place: Cell,
    bytes: u64,
    source: &Found,
) -> Result<LibOutcome, MemFault>
    requires memory { AreKnown (length types.now.terms) memory.old }
    requires source { source.now.number < length memory.old }
    requires of { source.now.run.of.0 < length types.now.terms }
    ensures value { Gives (λ o. record { memory = memory.new; outcome = o }) result
        (copy_from types.now memory.old place bytes source.now) }
    ensures err { OnErr result (memory.new ≡ memory.old) }
{
    let found = target_found(alloc, memory, types, &place, source.run.of)?;
    let target = alike(types, source.run.of, found)?;
    copy_to(alloc, memory, types, place, bytes, source, &target)
}

/// `memcpy`, `memmove` (C11 7.24.2.1, 7.24.2.2): bytes copied as whole elements, all read before any is written. The checks are
/// those of the second argument, of the first, of types, of the number of bytes and of ranges. A refusal leaves the memory as it
/// was.
pub fn copy_row(
    alloc: Global,
    memory: &mut Memory,
    types: &TypeTable,
    arguments: &[Value],
) -> Result<LibOutcome, MemFault>
    requires { AreKnown (length types.now.terms) memory.old }
    ensures value { Gives (λ o. record { memory = memory.new; outcome = o }) result
        (copy_row types.now memory.old (argument arguments.now 0) (argument arguments.now 1) (argument arguments.now 2)) }
    ensures err { OnErr result (memory.new ≡ memory.old) }
{
    let bytes = count(arguments, 2);
    let place = scalar(alloc, arguments, 0)?;
    if bytes == 0 {
        let value = Value::one(alloc, place)?;
        return Ok(gives(alloc, value));
    }
    let from = scalar(alloc, arguments, 1)?;
    let source = found_at(alloc, memory, types, &from)?;
    copy_from(alloc, memory, types, place, bytes, &source)
}

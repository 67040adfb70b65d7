// Characters written one by one.

ghost use Rattle.std.specs.Prelude.{◌≡◌, ◌+◌, ◌++◌, [], ◌∷◌, pos, take, get_or, slice_get, IfOk, OnOk, OnErr, length};
ghost use Rattle.ref_cells.specs.Answers.{Gives};
ghost use Rattle.ref_cells.specs.Places.{AreKnown};
ghost use Rattle.ref_cells.specs.declared.cells.Cell.TheVariants.{Number};
ghost use Rattle.ref_mem.specs.Writes.{changed, with_parts, character_part};
ghost use Rattle.c_types.specs.declared.term.PathStep.TheVariants.{Index};
ghost use Rattle.ref_texts.specs.Reading.{place_at};
ghost use Rattle.ref_texts.specs.Writing.{text_parts, with_text, writes, closed, filled_up, text_cells, byte_of, text_of};

use crate::reading::{place_at, push_char};
use c_types::table::TypeTable;
use c_types::term::{OutOfMemory, PathStep};
use pta_base::Listing;
use ref_cells::cells::{Cell, Cells, MemFault, Path, Value, push_entry};
use ref_cells::numbers::as_character;
use ref_elements::outcome::{LibOutcome, gives};
use ref_mem::memory::Memory;
use std::alloc::Global;

// A character so many on from a place, as a part.
fn part_at(
    alloc: Global,
    memory: &Memory,
    types: &TypeTable,
    place: &Cell,
    k: u64,
    c: i128,
) -> Result<(Path, Cells), MemFault>
    requires { AreKnown (length types.now.terms) memory.now }
    ensures { Gives (λ part. part) result (character_part types.now memory.now (place_at place.now k) c) }
{
    let here = place_at(alloc, place, k)?;
    memory.character_part(types, &here, c)
}

// The same so many characters further on.
fn part_behind(
    alloc: Global,
    memory: &Memory,
    types: &TypeTable,
    place: &Cell,
    k: u64,
    i: usize,
    c: i128,
) -> Result<(Path, Cells), MemFault>
    requires { AreKnown (length types.now.terms) memory.now }
    ensures { Gives (λ part. part) result (character_part types.now memory.now (place_at place.now (k + i)) c) }
{
    let at = k.checked_add(i as u64).ok_or(OutOfMemory)?;
    part_at(alloc, memory, types, place, at, c)
}

// One part more.
fn push_part(parts: &mut Vec<(Path, Cells)>, part: (Path, Cells)) -> Result<(), OutOfMemory>
    ensures { IfOk result (λ _. parts.new.items ≡ parts.old.items ++ part ∷ []) }
{
    match parts.push(part) {
        Ok(()) => Ok(()),
        Err(_) => Err(OutOfMemory),
    }
}

// Characters from the k-th of a place on, each under its path.
fn text_parts(
    alloc: Global,
    memory: &Memory,
    types: &TypeTable,
    place: &Cell,
    k: u64,
    text: &[i128],
) -> Result<Vec<(Path, Cells)>, MemFault>
    requires { AreKnown (length types.now.terms) memory.now }
    ensures { Gives (λ parts. parts.items) result (text_parts types.now memory.now place.now k text.now) }
{
    let mut parts = Vec::new(alloc);
    for (i, c) in text.iter().enumerate() {
        match part_behind(alloc, memory, types, place, k, i, *c) {
            Ok(part) => push_part(&mut parts, part)?,
            Err(fault) => return Err(fault),
        }
    }
    Ok(parts)
}

// The character in a place of a text, zero behind it.
fn char_in(text: &[i128], i: u64) -> i128
    ensures { result ≡ get_or text.now i (pos 0) }
{
    match text.get(i as usize) {
        Some(c) => *c,
        None => 0,
    }
}

// So many characters of a place, zeros behind the text, each under its path.
fn padded_parts(
    alloc: Global,
    memory: &Memory,
    types: &TypeTable,
    place: &Cell,
    n: u64,
    text: &[i128],
) -> Result<Vec<(Path, Cells)>, MemFault>
    requires { AreKnown (length types.now.terms) memory.now }
    ensures { Gives (λ parts. parts.items) result (text_parts types.now memory.now place.now 0 (filled_up n text.now)) }
{
    let mut parts = Vec::new(alloc);
    for i in 0..n {
        match part_at(alloc, memory, types, place, i, char_in(text, i)) {
            Ok(part) => push_part(&mut parts, part)?,
            Err(fault) => return Err(fault),
        }
    }
    Ok(parts)
}

// Puts parts into an instance, where there is one of that number.
#[tactic(auto, using(crate::proofs::PartSteps::changed_past))]
fn put_in(
    memory: &mut Memory,
    types: &TypeTable,
    instance: u32,
    parts: &[(Path, Cells)],
) -> Result<(), OutOfMemory>
    requires { AreKnown (length types.now.terms) memory.old }
    ensures ok { OnOk result
        (memory.new ≡ changed memory.old instance (slice_get memory.old instance) (with_parts types.now parts.now)) }
    ensures err { OnErr result (memory.new ≡ memory.old) }
{
    if (instance as usize) < memory.instances().len() {
        memory.put_parts(types, instance, parts)
    } else {
        Ok(())
    }
}

// Puts characters into the instance of a place.
fn with_text(
    memory: &mut Memory,
    types: &TypeTable,
    place: &Cell,
    parts: &[(Path, Cells)],
) -> Result<(), OutOfMemory>
    requires { AreKnown (length types.now.terms) memory.old }
    ensures ok { OnOk result (memory.new ≡ with_text types.now memory.old place.now parts.now) }
    ensures err { OnErr result (memory.new ≡ memory.old) }
{
    match place {
        Cell::Pointer { instance, .. } => put_in(memory, types, *instance, parts),
        Cell::Unset | Cell::Number(_) | Cell::Null | Cell::Function(_) => Ok(()),
    }
}

/// Writes characters from the k-th of a place on; the call gives a value.
pub(crate) fn writes(
    alloc: Global,
    memory: &mut Memory,
    types: &TypeTable,
    place: &Cell,
    k: u64,
    text: &[i128],
    value: Value,
) -> Result<LibOutcome, MemFault>
    requires { AreKnown (length types.now.terms) memory.old }
    ensures value { Gives (λ o. record { memory = memory.new; outcome = o }) result
        (writes types.now memory.old place.now k text.now value) }
    ensures err { OnErr result (memory.new ≡ memory.old) }
{
    let parts = text_parts(alloc, memory, types, place, k, text)?;
    with_text(memory, types, place, parts.as_slice())?;
    Ok(gives(alloc, value))
}

/// Writes so many characters at a place, zeros behind the text; the call gives a value.
pub(crate) fn writes_padded(
    alloc: Global,
    memory: &mut Memory,
    types: &TypeTable,
    place: &Cell,
    n: u64,
    text: &[i128],
    value: Value,
) -> Result<LibOutcome, MemFault>
    requires { AreKnown (length types.now.terms) memory.old }
    ensures value { Gives (λ o. record { memory = memory.new; outcome = o }) result
        (writes types.now memory.old place.now 0 (filled_up n text.now) value) }
    ensures err { OnErr result (memory.new ≡ memory.old) }
{
    let parts = padded_parts(alloc, memory, types, place, n, text)?;
    with_text(memory, types, place, parts.as_slice())?;
    Ok(gives(alloc, value))
}

/// A text with its zero.
pub(crate) fn close(text: &mut Vec<i128>) -> Result<(), OutOfMemory>
    ensures { IfOk result (λ _. text.new.items ≡ closed text.old.items) }
{
    push_char(text, 0)
}

// The path of an element.
fn element(alloc: Global, i: u64) -> Result<Path, OutOfMemory>
    ensures { IfOk result (λ path. path ≡ Index i ∷ []) }
{
    let steps = Vec::from_slice(alloc, &[PathStep::Index(i)])?;
    Ok(Listing::of(steps))
}

// One element more.
fn push_element(
    alloc: Global,
    list: &mut Vec<(Path, Cell)>,
    i: usize,
    c: i128,
) -> Result<(), OutOfMemory>
    ensures { IfOk result (λ _. list.new.items ≡ list.old.items ++ (Index i ∷ [], Number c) ∷ []) }
{
    let path = element(alloc, i as u64)?;
    push_entry(list, path, Cell::Number(c))
}

/// The cells of an array that holds these characters.
pub(crate) fn text_cells(alloc: Global, text: &[i128]) -> Result<Cells, OutOfMemory>
    ensures { IfOk result (λ cells. cells ≡ text_cells 0 text.now) }
{
    let mut list = Vec::new(alloc);
    for (i, c) in text.iter().enumerate() {
        push_element(alloc, &mut list, i, *c)?;
    }
    Ok(Cells::of(list))
}

// The lowest byte of a word as a character, none where it is zero.
fn byte_of(word: u64) -> Option<i128>
    ensures { result ≡ byte_of word }
{
    let low = word % 256;
    if low == 0 {
        None
    } else {
        Some(as_character(i128::from(low)))
    }
}

/// The text that a word gives: its bytes from the lowest up to the first zero, at most seven.
pub fn text_of(alloc: Global, word: u64) -> Result<Vec<i128>, OutOfMemory>
    ensures { IfOk result (λ text. text.items ≡ text_of word) }
{
    let mut text = Vec::new(alloc);
    let mut rest = word;
    for i in 0..7u64 {
        match byte_of(rest) {
            Some(c) => push_char(&mut text, c)?,
            None => return Ok(text),
        }
        rest = rest / 256;
    }
    Ok(text)
}

/// The first so many characters of the text that a word gives.
pub(crate) fn text_part(alloc: Global, word: u64, n: u64) -> Result<Vec<i128>, OutOfMemory>
    ensures { IfOk result (λ text. text.items ≡ take n (text_of word)) }
{
    let mut text = text_of(alloc, word)?;
    text.truncate(n as usize);
    Ok(text)
}
